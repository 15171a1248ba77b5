//! The lines of a token's validity that the facts, its payload and the time decide.
ghost use Rattle.std.specs.Prelude.{◌≡◌, IfOk, IfErr};
ghost use Rattle.ks_auth.specs.Facts.{told};
ghost use Rattle.ks_auth.specs.Lines.{IsHeld, IsOpened, IsUnopened, first_unless, token_held};
ghost use Rattle.ks_machine.specs.Validity.{opens};
ghost use Rattle.ks_payload.specs.Payloads.{IsInRange};

use crate::{Facts, Tables};
use ks_base::{Bytes, Text};
use ks_fernet::OpenAnswer;
use ks_machine::{Why, read_payload};
use ks_payload::{Payload, readings};
use ks_ring::HeldKey;

/// Why a token's text gives no payload.
#[derive(Drop)]
pub enum Halt {
    /// This line does not hold.
    Refused(Why),
    /// A fact is lacking.
    Needs,
}

/// What the token holds and when it was issued.
#[tactic(auto, unfolding(crate::specs::Lines::token_held))]
pub fn held(
    tables: &Tables,
    moment: u64,
    text: &Text,
    late: bool,
    facts: &Facts,
) -> Result<(Payload, u64), Halt>
    ensures lines { IsHeld (token_held (told facts.now) tables.now.ring.now.held tables.now.settings.now.life moment late text.now) result }
    ensures range { IfOk result (λ found. IsInRange found.0) }
{
    readings();
    let (issued, plain) = opening(facts, tables.ring.held(), text)?;
    match read_payload(tables.settings.life, moment, late, issued, plain.as_slice()) {
        Ok(payload) => Ok((payload, issued)),
        Err(why) => Err(Halt::Refused(why)),
    }
}

/// What the first key that opens the text finds, and when that was sealed.
fn opening<'a>(facts: &'a Facts, keys: &[HeldKey], text: &Text) -> Result<(u64, &'a Bytes), Halt>
    ensures opened { IfOk result (λ found. IsOpened (opens (told facts.now) keys.now text.now) found.0 found.1.now) }
    ensures unopened { IfErr result (λ stop. IsUnopened (opens (told facts.now) keys.now text.now) stop) }
{
    let mut lacking = false;
    let mut is_text = true;
    for key in keys {
        match facts.opened(key, text) {
            None => lacking = true,
            Some(OpenAnswer::No) => {}
            Some(OpenAnswer::NotText) => is_text = false,
            Some(OpenAnswer::Yes { time, plain }) => {
                return unless_before(lacking, is_text, Some((*time, plain)));
            }
        }
    }
    unless_before(lacking, is_text, None)
}

/// What was opened, unless a key above lacks its fact or has found no token.
fn unless_before(
    lacking: bool,
    is_text: bool,
    opened: Option<(u64, &Bytes)>,
) -> Result<(u64, &Bytes), Halt>
    ensures { result ≡ first_unless lacking is_text opened.entry }
{
    if lacking {
        return Err(Halt::Needs);
    }
    if !is_text {
        return Err(Halt::Refused(Why::Text));
    }
    opened.ok_or(Halt::Refused(Why::Key))
}
