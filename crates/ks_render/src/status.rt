ghost use Rattle.std.specs.Prelude.{◌≡◌};
ghost use Rattle.ks_render.specs.Answers.{status_by, status_of, status_of_granted};
ghost use Rattle.ks_render.specs.Errors.{status_of_bad, status_of_cause};

use ks_http::HttpCause;
use ks_machine::{BodyOut, Cause, Reply};

/// The status where a command made what is told, or did not.
fn status_by(made: bool) -> u16
    ensures { result ≡ status_by made }
{
    if made { 201 } else { 200 }
}

/// The status of an answer that grants a command.
fn status_of_granted(granted: &BodyOut) -> u16
    ensures { result ≡ status_of_granted granted.now }
{
    match granted {
        BodyOut::Nothing => 204,
        BodyOut::Version => 200,
        BodyOut::Versions => 300,
        BodyOut::Token(told) => status_by(told.get().made),
        BodyOut::One(_, made) => status_by(*made),
        BodyOut::Many(_, _, _) => 200,
        BodyOut::Inference(_, _, made) => status_by(*made),
        BodyOut::Inferences(_, _) => 200,
        BodyOut::Grants(_, _) => 200,
        BodyOut::Assignments(_, _) => 200,
        BodyOut::Trusts(_, _) => 200,
        BodyOut::TrustRoles(_, _) => 200,
        BodyOut::Events(_, _) => 200,
        BodyOut::Keys(_, _) => 200,
        BodyOut::Catalog(_, _) => 200,
        BodyOut::AppCredMade(_, _, _) => 201,
        BodyOut::AppCreds(_, _) => 200,
        BodyOut::Secrets(_, _) => 200,
    }
}

/// The status of a refusal.
pub fn status_of_cause(cause: &Cause) -> u16
    ensures { result ≡ status_of_cause cause.now }
{
    match cause {
        Cause::Shape(_) => 400,
        Cause::NoToken => 401,
        Cause::CallerToken(_) => 401,
        Cause::Credentials => 401,
        Cause::ScopeRefused(_) => 401,
        Cause::Rule(_) => 403,
        Cause::Trust(_) => 403,
        Cause::Tree(_) => 403,
        Cause::Prohibited => 403,
        Cause::Immutable(_) => 403,
        Cause::TrustToken => 403,
        Cause::KeyMode => 403,
        Cause::Absent(_, _) => 404,
        Cause::SubjectToken(_) => 404,
        Cause::NoRoute => 404,
        Cause::NoMethod(_) => 405,
        Cause::NameTaken(_) => 409,
        Cause::Keys(_) => 409,
        Cause::Full(_) => 503,
        Cause::IdTaken(_) => 503,
        Cause::Random => 503,
        Cause::KeyDir => 503,
        Cause::Memory => 503,
    }
}

/// The status of a reply.
pub fn status_of(reply: &Reply) -> u16
    ensures { result ≡ status_of reply.now }
{
    match reply {
        Reply::Ok(granted) => status_of_granted(granted),
        Reply::Refused(cause) => status_of_cause(cause),
    }
}

/// The status of the response to bytes that are no request.
pub fn status_of_bad(cause: &HttpCause) -> u16
    ensures { result ≡ status_of_bad cause.now }
{
    match cause {
        HttpCause::Malformed => 400,
        HttpCause::Chunked => 411,
        HttpCause::TooLarge => 413,
        HttpCause::HeadTooLarge => 431,
        HttpCause::Version => 505,
    }
}
