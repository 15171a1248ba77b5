//! What the server reads off a request.
ghost use Rattle.std.specs.Prelude.{◌≡◌, ◌<◌};
ghost use Rattle.ks_base.specs.declared.limits.TheConstants.{CONNECTION_REQUESTS};
ghost use Rattle.ks_server.specs.Sessions.{ends_with, is_head};

use ks_base::limits::CONNECTION_REQUESTS;
use ks_base::{Drawn, Method};
use ks_http::Request;
use ks_machine::{Call, Command, FolderRead};

/// Whether the response has no body.
pub fn is_head(method: Method) -> bool
    ensures { result ≡ is_head method }
{
    matches!(method, Method::Head)
}

/// Whether the connection ends with the request behind `count` others.
pub fn is_last(request: &Request, count: u64) -> bool
    requires { count < CONNECTION_REQUESTS }
    ensures { result ≡ ends_with count request.now }
{
    request.close || count + 1 == CONNECTION_REQUESTS
}

/// The call of a command, with the tokens of its request.
pub fn call_of(
    request: Request,
    command: Command,
    reading: u64,
    draw: Drawn,
    folder: FolderRead,
) -> Call
    ensures { result ≡ record { command = command; caller = request.auth; subject = request.subject; reading = reading; draw = draw; folder = folder } }
{
    let (caller, subject) = request.into_tokens();
    Call {
        command,
        caller,
        subject,
        reading,
        draw,
        folder,
    }
}
