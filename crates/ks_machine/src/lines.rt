ghost use Rattle.std.specs.Prelude.{◌≡◌, ◌≤◌, [], IfOk, IfErr, Ok, Err};
ghost use Rattle.ks_base.specs.declared.limits.TheConstants.{EXPIRED_WINDOW, LAST_SECOND};
ghost use Rattle.ks_machine.specs.TokenLines.{end_of, first_opened, payload_lines, token_lines as lines_of};

use crate::Why;
use ks_base::limits::EXPIRED_WINDOW;
use ks_base::{Bytes, Memory};
use ks_fernet::{Envelope, EnvelopeFault, OpenAnswer, OpeningKey};
use ks_payload::Payload;
use std::alloc::Global;

/// What a token holds whose lines up to `Span` hold.
#[derive(Drop)]
pub struct ReadToken {
    pub payload: Payload,
    /// When it was issued, in seconds since 1970.
    pub issued: u64,
    /// The bytes that spell the payload.
    pub plain: Bytes,
}

/// What the first key makes of a text that opens it. The keys are tried in their order.
#[tactic(auto, unfolding(crate::specs::TokenLines::first_opened))]
pub fn first_answer(alloc: Global, keys: &[OpeningKey], text: &[u8]) -> Result<OpenAnswer, Memory>
    ensures { IfOk result (λ said. said ≡ first_opened keys.now text.now) }
{
    for key in keys {
        match key.answer(alloc, text)? {
            OpenAnswer::No => {}
            OpenAnswer::NotText => return Ok(OpenAnswer::NotText),
            OpenAnswer::Yes { time, plain } => return Ok(OpenAnswer::Yes { time, plain }),
        }
    }
    unopened(alloc, text)
}

#[tactic(auto, unfolding(crate::specs::TokenLines::first_opened))]
fn unopened(alloc: Global, text: &[u8]) -> Result<OpenAnswer, Memory>
    ensures { IfOk result (λ said. said ≡ first_opened [] text.now) }
{
    match Envelope::read(alloc, text) {
        Ok(_) => Ok(OpenAnswer::No),
        Err(EnvelopeFault::Memory) => Err(Memory),
        Err(_) => Ok(OpenAnswer::NotText),
    }
}

/// What a token holds, or the first line up to `Span` that does not hold. `life` is how long a token may
/// live and `moment` is now, both in seconds; `late` says whether an expired token is allowed for two days.
pub fn token_lines(life: u64, moment: u64, late: bool, answer: OpenAnswer) -> Result<ReadToken, Why>
    ensures { result ≡ lines_of life moment late answer }
{
    match answer {
        OpenAnswer::NotText => Err(Why::Text),
        OpenAnswer::No => Err(Why::Key),
        OpenAnswer::Yes { time, plain } => hold_payload(life, moment, late, time, plain),
    }
}

fn hold_payload(
    life: u64,
    moment: u64,
    late: bool,
    issued: u64,
    plain: Bytes,
) -> Result<ReadToken, Why>
    ensures { result ≡ payload_lines life moment late issued plain }
{
    let payload = read_payload(life, moment, late, issued, plain.as_slice())?;
    Ok(ReadToken {
        payload,
        issued,
        plain,
    })
}

/// The payload of an opened token that was issued at this second, or the first line from `Payload` to `Span` that
/// does not hold. It takes no memory.
#[tactic(auto, unfolding(crate::specs::TokenLines::payload_lines))]
pub fn read_payload(
    life: u64,
    moment: u64,
    late: bool,
    issued: u64,
    plain: &[u8],
) -> Result<Payload, Why>
    ensures held { IfOk result (λ payload. payload_lines life moment late issued plain.now ≡ Ok (record { payload = payload; issued = issued; plain = plain.now })) }
    ensures refused { IfErr result (λ why. payload_lines life moment late issued plain.now ≡ Err why) }
{
    let Ok(Some(payload)) = Payload::read(plain) else {
        return Err(Why::Payload);
    };
    if issued > moment {
        return Err(Why::Future);
    }
    if moment >= end_of(late, payload.expires) {
        return Err(Why::Expired);
    }
    if payload.expires.saturating_sub(issued) > life {
        return Err(Why::Span);
    }
    Ok(payload)
}

/// The moment from which a token that expires at this second is found no more.
fn end_of(late: bool, expires: u64) -> u64
    requires { expires ≤ LAST_SECOND }
    ensures { result ≡ end_of late expires }
{
    if late {
        expires + EXPIRED_WINDOW
    } else {
        expires
    }
}
