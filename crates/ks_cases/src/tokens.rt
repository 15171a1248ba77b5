//! The tables of Fernet keys and tokens.

use crate::case::{key_at, read_text};
use anyhow::{Result, ensure};
use ks_base::Key;
use ks_fernet::{Envelope, EnvelopeFault, KeyText, OpenAnswer, answer, open, read_key, seal};
use ks_tables::{Case, try_table};
use std::alloc::Global;
use std::rt::Files;

/// The most bytes that are sealed.
const LONGEST: usize = 640;

pub fn try_tables<R: Files + Print + AllocGlobal>(rt: &R) -> Result<()> {
    try_table(rt, "key_texts", key_read)?;
    try_table(rt, "envelopes", envelope_read)?;
    try_table(rt, "tokens_opened", token_opened)?;
    try_table(rt, "tokens_kept", token_kept)?;
    try_table(rt, "tokens_sealed", token_sealed)
}

/// Of a text.
fn key_read(alloc: Global, case: &Case) -> Result<String> {
    match read_key(case.bytes(0)) {
        KeyText::Key(key) => key_text(alloc, &key),
        KeyText::NotAKey => Ok(String::from_str(alloc, "no key")?),
    }
}

/// The halves of a key in hex.
pub fn key_text(alloc: Global, key: &Key) -> Result<String> {
    let signing = hex::encode(alloc, key.signing)?;
    let encryption = hex::encode(alloc, key.encryption)?;
    Ok(format!(in alloc; "{signing} {encryption}")?)
}

/// Of a text.
fn envelope_read(alloc: Global, case: &Case) -> Result<String> {
    let word = match Envelope::read(alloc, case.bytes(0)) {
        Ok(envelope) => return envelope_text(alloc, &envelope),
        Err(EnvelopeFault::NotText) => "no text",
        Err(EnvelopeFault::Length) => "length",
        Err(EnvelopeFault::Version) => "version",
        Err(EnvelopeFault::Memory) => "memory",
    };
    Ok(String::from_str(alloc, word)?)
}

/// The time, and the iv, the ciphertext and the code in hex.
fn envelope_text(alloc: Global, envelope: &Envelope) -> Result<String> {
    let iv = hex::encode(alloc, envelope.iv)?;
    let ciphertext = hex::encode(alloc, envelope.ciphertext.as_slice())?;
    let mac = hex::encode(alloc, envelope.mac)?;
    Ok(format!(in alloc; "{} {iv} {ciphertext} {mac}", envelope.time)?)
}

/// Of a key and a text.
fn token_opened(alloc: Global, case: &Case) -> Result<String> {
    opened_text(alloc, &answer(alloc, &key_at(case, 0)?, case.bytes(1))?)
}

/// The time and the plain bytes in hex, with a colon between them.
fn opened_text(alloc: Global, answer: &OpenAnswer) -> Result<String> {
    match answer {
        OpenAnswer::NotText => Ok(String::from_str(alloc, "no text")?),
        OpenAnswer::No => Ok(String::from_str(alloc, "no")?),
        OpenAnswer::Yes { time, plain } => {
            let plain = hex::encode(alloc, plain.as_slice())?;
            Ok(format!(in alloc; "{time}:{plain}")?)
        }
    }
}

/// Of a number, a key and a text, which the answer repeats before what they make.
fn token_kept(alloc: Global, case: &Case) -> Result<String> {
    let text = read_text(alloc, case.bytes(2))?;
    let opened = open(alloc, case.number(0)?, &key_at(case, 1)?, &text)?;
    let key = key_text(alloc, opened.key())?;
    let said = opened_text(alloc, opened.answer())?;
    Ok(format!(in alloc;
        "{} {key} {} {said}",
        opened.number(),
        opened.text().as_str()
    )?)
}

/// Of a key, a time, an iv and plain bytes in hex.
fn token_sealed(alloc: Global, case: &Case) -> Result<String> {
    let plain = case.hex(alloc, 3)?;
    ensure!(plain.len() <= LONGEST, "{} bytes", plain.len());
    let text = seal(
        alloc,
        &key_at(case, 0)?,
        case.number(1)?,
        &case.block(2)?,
        plain.as_slice(),
    )?;
    Ok(String::from_str(alloc, text.as_str())?)
}
