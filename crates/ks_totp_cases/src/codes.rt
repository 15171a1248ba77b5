//! The tables of HMAC, of codes and of base32.

use anyhow::Result;
use ks_tables::{Case, try_table};
use ks_totp::{code, hmac_sha1, read_base32, write_base32};
use std::alloc::Global;
use std::rt::Files;

pub fn try_tables<R: Files + Print + AllocGlobal>(rt: &R) -> Result<()> {
    try_table(rt, "hmac_sha1", signed)?;
    try_table(rt, "codes", coded)?;
    try_table(rt, "base32_written", written)?;
    try_table(rt, "base32_read", read)
}

/// Of a key and a message.
fn signed(alloc: Global, case: &Case) -> Result<String> {
    Ok(hex::encode(alloc, hmac_sha1(case.bytes(0), case.bytes(1)))?)
}

/// Of a secret and a counter.
fn coded(alloc: Global, case: &Case) -> Result<String> {
    let code = code(case.bytes(0), case.number(1)?);
    Ok(format!(in alloc; "{code:06}")?)
}

/// Of bytes.
fn written(alloc: Global, case: &Case) -> Result<String> {
    let text = write_base32(alloc, case.bytes(0))?;
    Ok(String::from_str(alloc, text.as_str())?)
}

/// Of a text.
fn read(alloc: Global, case: &Case) -> Result<String> {
    match read_base32(alloc, case.bytes(0))? {
        Some(bytes) => Ok(hex::encode(alloc, bytes.as_slice())?),
        None => Ok(String::from_str(alloc, "none")?),
    }
}
