ghost use Rattle.std.specs.Prelude.{◌≡◌, IfOk};
ghost use Rattle.json.specs.Lex.{tokens};
ghost use Rattle.ks_machine.specs.Told.{IsTellable};
ghost use Rattle.ks_render.specs.Bodies.{body_of, tokens_of};
ghost use Rattle.ks_render.specs.Answers.{response_of, bad_response_of};

use crate::bodies::{bad_body_text, body_text};
use crate::fields::{bad_fields, fields_of};
use crate::status::{status_of, status_of_bad};
use ks_base::{Memory, Text};
use ks_http::{HttpCause, Response};
use ks_machine::Reply;
use std::alloc::Global;

/// The response of HTTP that tells a reply, with a body of JSON.
///
/// `url` is the URL under which clients reach the server, as `http://127.0.0.1:5000`, with no slash at its end.
/// `head` says that the request was HEAD, whose response has the fields of a body and no body (RFC 9110,
/// section 9.3.2), and `close` that the connection ends with the response. Memory is refused where there is too
/// little for the fields and the body. The moments that the reply tells must have texts: none is after the year
/// 9999.
pub fn render(
    alloc: Global,
    reply: &Reply,
    url: &Text,
    head: bool,
    close: bool,
) -> Result<Response, Memory>
    requires { IsTellable reply.now }
    ensures response { IfOk result (λ made. made ≡ response_of reply.now url.now head close) }
    // Cut into tokens again (RFC 8259), the body gives those of its value: no text in it ends anything early.
    ensures reads_back { IfOk result (λ made. tokens made.body ≡ tokens_of (body_of reply.now url.now)) }
{
    Ok(Response {
        status: status_of(reply),
        fields: fields_of(alloc, reply, url, close)?,
        body: body_text(alloc, reply, url)?,
        without_body: head,
    })
}

/// The response to bytes that are no request, after which the connection ends, since nothing tells where a next
/// request would begin. Memory is refused as by `render`.
pub fn render_bad(alloc: Global, cause: &HttpCause) -> Result<Response, Memory>
    ensures { IfOk result (λ made. made ≡ bad_response_of cause.now) }
{
    Ok(Response {
        status: status_of_bad(cause),
        fields: bad_fields(alloc)?,
        body: bad_body_text(alloc, cause)?,
        without_body: false,
    })
}
