//! The secrets of application credentials.
ghost use Rattle.std.specs.Prelude.{◌≡◌, drop, IfOk};
ghost use Rattle.ks_machine.specs.AppCredCommands.{secret_of_draw};
ghost use Rattle.ks_machine.specs.Outcomes.{bytes_in};

use base64::engine::general_purpose::URL_SAFE_NO_PAD;
use ks_base::{Drawn, Memory, Text};
use std::alloc::Global;

/// The secret of an application credential that a request makes: the one that it gives, or else the last 32 of its
/// random bytes in base64url without padding (RFC 4648, section 5).
pub fn secret_of_draw(alloc: Global, drawn: &Drawn, given: &Option<Text>) -> Result<Text, Memory>
    ensures { IfOk result (λ secret. secret ≡ secret_of_draw drawn.now given.now) }
{
    if let Some(secret) = given {
        return secret.copy();
    }
    let text = URL_SAFE_NO_PAD.encode(alloc, last_bytes(drawn))?;
    Text::of(alloc, text.as_str())
}

/// The last 32 of the random bytes, where there are any.
fn last_bytes(drawn: &Drawn) -> &[u8]
    ensures { result.now ≡ drop 32 (bytes_in drawn.now) }
{
    match drawn {
        Drawn::Bytes(bytes) => bytes.split_at(32).1,
        Drawn::Unused | Drawn::Failed => &[],
    }
}
