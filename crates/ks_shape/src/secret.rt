//! Secrets of one-time codes, and the codes that are typed in.
ghost use Rattle.std.specs.Prelude.{◌≡◌, ◌+◌, ◌<◌, ◌≤◌, ℕ, length, slice_index};
ghost use Rattle.std.specs.Char.{is_ascii_digit};
ghost use Rattle.std.specs.List.{list_all};
ghost use Rattle.ks_base.specs.Results.{found};
ghost use Rattle.ks_shape.specs.declared.misfit.Misfit.TheVariants as misfit;
ghost use Rattle.ks_shape.specs.Places.{place_of};
ghost use Rattle.ks_shape.specs.Readings.{Fits, Reads};
ghost use Rattle.ks_shape.specs.Secrets.{base32_bytes, code_in, code_text, secret_blob, secret_of, totp_type};
ghost use Rattle.ks_shape.specs.Times.{two_at};

use crate::fields::FieldType;
use crate::misfit::{Misfit, Unread};
use crate::node::Node;
use crate::types::{IdText, any_text, need};
use ks_base::limits::{TOTP_SECRET_LEAST, TOTP_SECRET_MOST};
use ks_base::{Bytes, ShapeRefusal};
use ks_json::Value;
use ks_machine::SecretBody;
use ks_totp::read_base32;
use std::alloc::Global;

/// A code that is typed in: six digits.
#[derive(Clone, Copy)]
pub struct CodeText;

/// The one type of credentials that there is, `totp`.
#[derive(Clone, Copy)]
struct TotpType;

/// A secret of one-time codes in base32: 10 to 64 bytes.
#[derive(Clone, Copy)]
struct SecretBlob;

/// The number of the two digits at this place.
fn two_at(text: &[u8], place: usize) -> u32
    requires inside { place + 1 < length text.now }
    requires digits { (k : ℕ) → k < length text.now → (48 ≤ slice_index text.now k) × (slice_index text.now k ≤ 57) }
    ensures value { result ≡ two_at place text.now }
    ensures small { result < 100 }
{
    u32::from(text[place] - b'0') * 10 + u32::from(text[place + 1] - b'0')
}

fn are_digits(text: &[u8]) -> bool
    ensures { result ≡ list_all is_ascii_digit text.now }
{
    text.iter().all(|byte| byte.is_ascii_digit())
}

/// The number of a text of six digits.
#[tactic(auto, using(crate::proofs::SecretLemmas::digit_at))]
fn code_in(text: &[u8]) -> Option<u32>
    ensures { result ≡ code_in text.now }
{
    if text.len() != 6 {
        return None;
    }
    if !are_digits(text) {
        return None;
    }
    Some(two_at(text, 0) * 10_000 + two_at(text, 2) * 100 + two_at(text, 4))
}

/// Each byte is below 256, which no clause says of a list of bytes. The function does nothing: its contract is the fact.
fn bytes_fit(_bytes: &[u8])
    ensures { (k : ℕ) → k < length _bytes.now → slice_index _bytes.now k < 256 }
{}

/// The bytes of which a text is the base32.
#[tactic(auto, using(crate::proofs::Base32Lemmas::bytes_read, crate::proofs::Base32Lemmas::no_bytes))]
fn bytes_in(alloc: Global, text: &str) -> Result<Bytes, Unread>
    ensures { Fits result (found (base32_bytes text.now) misfit.Range) }
{
    match read_base32(alloc, text.as_bytes())? {
        Some(bytes) => {
            bytes_fit(bytes.as_slice());
            Ok(bytes)
        }
        None => Err(Unread::Misfit(Misfit::Range)),
    }
}

impl FieldType for CodeText {
    type Field = u32;

    ghost reads = { λ _. code_text };

    #[tactic(auto, unfolding(crate::specs::Secrets::code_text))]
    fn read(&self, _alloc: Global, value: &Value<'_>) -> Result<u32, Unread> {
        let text = any_text(value)?;
        match code_in(text.as_bytes()) {
            Some(code) => Ok(code),
            None => Err(Unread::Misfit(Misfit::Range)),
        }
    }
}

impl FieldType for TotpType {
    type Field = ();

    ghost reads = { λ _. totp_type };

    #[tactic(auto, unfolding(crate::specs::Secrets::totp_type))]
    fn read(&self, _alloc: Global, value: &Value<'_>) -> Result<(), Unread> {
        let text = any_text(value)?;
        Ok(need(text == "totp", Misfit::Range)?)
    }
}

impl FieldType for SecretBlob {
    type Field = Bytes;

    ghost reads = { λ _. secret_blob };

    #[tactic(auto, unfolding(crate::specs::Secrets::secret_blob))]
    fn read(&self, alloc: Global, value: &Value<'_>) -> Result<Bytes, Unread> {
        let text = any_text(value)?;
        let bytes = bytes_in(alloc, text)?;
        let few = (TOTP_SECRET_LEAST..=TOTP_SECRET_MOST).contains(&bytes.as_slice().len());
        need(few, Misfit::Range)?;
        Ok(bytes)
    }
}

/// The body that gives a user a secret of one-time codes.
#[tactic(auto, unfolding(crate::specs::Secrets::secret_of))]
pub fn secret(body: &Node) -> Result<SecretBody, ShapeRefusal>
    ensures { Reads result (secret_of (place_of body.now)) }
{
    body.needed(&["credential", "type"], &TotpType)?;
    let secret = body.needed(&["credential", "blob"], &SecretBlob)?;
    let user = body.needed(&["credential", "user_id"], &IdText)?;
    Ok(SecretBody { user, secret })
}
