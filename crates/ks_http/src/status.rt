ghost use Rattle.std.specs.Prelude.{◌≡◌};
ghost use Rattle.ks_http.specs.Responses.{reason_of};

/// The reason phrase that goes with a status (RFC 9110, section 15). It is empty for a status that
/// this server does not answer.
#[tactic(auto, unfolding(crate::specs::Responses::reason_of))]
pub fn reason(status: u16) -> &'static str
    ensures { result.now ≡ reason_of status }
{
    match status {
        200 => "OK",
        201 => "Created",
        204 => "No Content",
        300 => "Multiple Choices",
        400 => "Bad Request",
        401 => "Unauthorized",
        403 => "Forbidden",
        404 => "Not Found",
        405 => "Method Not Allowed",
        409 => "Conflict",
        411 => "Length Required",
        413 => "Request Entity Too Large",
        431 => "Request Header Fields Too Large",
        503 => "Service Unavailable",
        505 => "HTTP Version Not Supported",
        _ => "",
    }
}
