//! The calls of a drill.
ghost use Rattle.std.specs.Prelude.{◌≡◌, IfOk};
ghost use Rattle.ks_machine.specs.Fit.{Fit, IsDraw};
ghost use Rattle.ks_drill.specs.Scripts.{IsAskable, call_of, draw_of};

use ks_base::{Drawn, Memory, Text};
use ks_machine::{Call, Command, FolderRead};

/// What every call reads of the clock, in whole seconds since 1970-01-01T00:00:00Z.
const READING: u64 = 1_000_000;

/// The random bytes of a call, which are its number eight times.
#[tactic(auto, unfolding(crate::specs::Scripts::draw_of))]
fn draw(number: u64) -> Drawn
    ensures made { result ≡ draw_of number }
    ensures long { IsDraw result }
{
    let [a, b, c, d, e, f, g, h] = number.to_be_bytes();
    Drawn::Bytes([
        a, b, c, d, e, f, g, h, a, b, c, d, e, f, g, h, a, b, c, d, e, f, g, h, a, b, c, d, e, f,
        g, h, a, b, c, d, e, f, g, h, a, b, c, d, e, f, g, h, a, b, c, d, e, f, g, h, a, b, c, d,
        e, f, g, h,
    ])
}

/// The call with this number.
#[tactic(auto, using(crate::proofs::CallLemmas::fit_of))]
pub(crate) fn call(
    number: u64,
    command: Command,
    caller: Option<Text>,
    subject: Option<Text>,
) -> Call
    requires { IsAskable command }
    ensures made { result ≡ call_of number command caller subject }
    ensures fit { Fit result }
{
    Call {
        command,
        caller,
        subject,
        reading: READING,
        draw: draw(number),
        folder: FolderRead::Unused,
    }
}

/// An equal text, if there is one.
pub(crate) fn copied(text: &Option<Text>) -> Result<Option<Text>, Memory>
    ensures { IfOk result (λ made. made ≡ text.now) }
{
    match text {
        Some(text) => Ok(Some(text.copy()?)),
        None => Ok(None),
    }
}
