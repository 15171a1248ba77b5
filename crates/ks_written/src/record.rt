//! What is kept of a password, as a text: `pbkdf2_sha256$ROUNDS$SALT$DIGEST`.
ghost use Rattle.std.specs.Prelude.{◌≡◌, IfOk, option_map, string_bytes};
ghost use Rattle.base64.specs.Engines.{standard};
ghost use Rattle.base64.specs.GeneralPurpose.{decoded_of};
ghost use Rattle.ks_base.specs.Results.{found};
ghost use Rattle.ks_shape.specs.declared.misfit.Misfit.TheVariants as misfit;
ghost use Rattle.ks_shape.specs.Readings.{Fits};
ghost use Rattle.ks_written.specs.Records.{bytes_in, counted_in, cut, record_in, record_text, rounds_in, salted_in};
ghost use Rattle.ks_written.specs.Written.{password_record};

use crate::texts::joined;
use base64::DecodeAllocError;
use base64::engine::general_purpose::STANDARD;
use itoa::Buffer;
use ks_base::limits::ROUNDS;
use ks_base::{Memory, PasswordRow};
use ks_json::Value;
use ks_shape::{AnyText, FieldType, Misfit, Unread};
use ks_words::number_between;
use std::alloc::Global;

const SCHEME: &str = "pbkdf2_sha256";

/// The text of what is kept of a password.
#[tactic(auto, unfolding(crate::specs::Records::record_text))]
pub fn record_text(alloc: Global, row: &PasswordRow) -> Result<String, Memory>
    ensures { IfOk result (λ made. string_bytes made ≡ record_text row.now) }
{
    let salt = STANDARD.encode(alloc, &row.salt)?;
    let digest = STANDARD.encode(alloc, &row.digest)?;
    joined(
        alloc,
        &[
            SCHEME,
            "$",
            Buffer::new().format(row.rounds),
            "$",
            salt.as_str(),
            "$",
            digest.as_str(),
        ],
    )
}

/// What stands before the first `$` and what stands behind it.
fn cut(text: &str) -> Option<(&str, &str)>
    ensures { option_map (λ parts. (parts.0.now, parts.1.now)) result ≡ cut text.entry.now }
{
    text.split_once('$')
}

/// The iteration count, as a decimal without a sign and without a leading zero.
#[tactic(auto, unfolding(crate::specs::Records::rounds_in))]
fn rounds_in(word: &str) -> Option<u32>
    ensures { result ≡ rounds_in word.now }
{
    let Some(rounds) = number_between(word, 1, ROUNDS) else {
        return None;
    };
    if Buffer::new().format(rounds) == word {
        Some(rounds)
    } else {
        None
    }
}

/// The bytes that a text spells in base64 with padding.
#[tactic(auto, unfolding(base64::specs::GeneralPurpose::decoded_of))]
fn decoded(alloc: Global, text: &str) -> Result<Option<Vec<u8>>, Memory>
    ensures { IfOk result (λ bytes. option_map (λ v. v.items) bytes ≡ decoded_of standard text.now) }
{
    match STANDARD.decode(alloc, text.as_bytes()) {
        Ok(bytes) => Ok(Some(bytes)),
        Err(DecodeAllocError::DecodeError(_)) => Ok(None),
        Err(DecodeAllocError::OutOfMemory) => Err(Memory),
    }
}

const OUT_OF_RANGE: Unread = Unread::Misfit(Misfit::Range);

/// The so many bytes that a text spells.
#[tactic(auto, unfolding(crate::specs::Records::bytes_in))]
fn bytes_in<const N: usize>(alloc: Global, text: &str) -> Result<[u8; N], Unread>
    ensures { Fits result (found (bytes_in N text.now) misfit.Range) }
{
    let Some(spelled) = decoded(alloc, text)? else {
        return Err(OUT_OF_RANGE);
    };
    if spelled.len() != N {
        return Err(OUT_OF_RANGE);
    }
    let mut bytes = [0u8; N];
    bytes.copy_from_slice(spelled.as_slice());
    Ok(bytes)
}

/// `SALT$DIGEST`, of a record with so many rounds.
#[tactic(auto, unfolding(crate::specs::Records::salted_in))]
fn salted_in(alloc: Global, rounds: u32, text: &str) -> Result<PasswordRow, Unread>
    ensures { Fits result (salted_in rounds text.now) }
{
    let Some((salt, digest)) = cut(text) else {
        return Err(OUT_OF_RANGE);
    };
    let salt = bytes_in::<16>(alloc, salt)?;
    let digest = bytes_in::<32>(alloc, digest)?;
    Ok(PasswordRow {
        salt,
        rounds,
        digest,
    })
}

/// `ROUNDS$SALT$DIGEST`.
#[tactic(auto, unfolding(crate::specs::Records::counted_in))]
fn counted_in(alloc: Global, text: &str) -> Result<PasswordRow, Unread>
    ensures { Fits result (counted_in text.now) }
{
    let Some((rounds, rest)) = cut(text) else {
        return Err(OUT_OF_RANGE);
    };
    let Some(rounds) = rounds_in(rounds) else {
        return Err(OUT_OF_RANGE);
    };
    salted_in(alloc, rounds, rest)
}

/// What a text says that is to be the record of a password.
#[tactic(auto, unfolding(crate::specs::Records::record_in))]
fn record_in(alloc: Global, text: &str) -> Result<PasswordRow, Unread>
    ensures { Fits result (record_in text.now) }
{
    let Some((scheme, rest)) = cut(text) else {
        return Err(OUT_OF_RANGE);
    };
    if scheme != SCHEME {
        return Err(OUT_OF_RANGE);
    }
    counted_in(alloc, rest)
}

/// The record of a password.
#[derive(Clone, Copy)]
pub(crate) struct RecordText;

impl FieldType for RecordText {
    type Field = PasswordRow;

    ghost reads = { λ _. password_record };

    #[tactic(auto, unfolding(crate::specs::Written::password_record))]
    fn read(&self, alloc: Global, value: &Value<'_>) -> Result<PasswordRow, Unread> {
        let text = AnyText.read(alloc, value)?;
        record_in(alloc, text.as_str())
    }
}
