//! The tables of AES-128, CBC, HMAC and PBKDF2.

use anyhow::{Result, ensure};
use ks_aes_cbc::{Aes128, cbc_open, cbc_seal};
use ks_hmac::{hmac, pbkdf2, same};
use ks_tables::{Case, try_table};
use std::alloc::Global;
use std::rt::Files;

pub fn try_tables<R: Files + Print + AllocGlobal>(rt: &R) -> Result<()> {
    try_table(rt, "aes_sealed", aes_sealed)?;
    try_table(rt, "aes_opened", aes_opened)?;
    try_table(rt, "cbc_sealed", cbc_sealed)?;
    try_table(rt, "cbc_opened", cbc_opened)?;
    try_table(rt, "hmac", code)?;
    try_table(rt, "same_codes", comparison)?;
    try_table(rt, "pbkdf2", derived)
}

/// Of a key and a block.
fn aes_sealed(alloc: Global, case: &Case) -> Result<String> {
    let sealed = Aes128::new(&case.block(0)?).seal_block(&case.block(1)?);
    Ok(hex::encode(alloc, sealed)?)
}

/// Of a key and a block.
fn aes_opened(alloc: Global, case: &Case) -> Result<String> {
    let opened = Aes128::new(&case.block(0)?).open_block(&case.block(1)?);
    Ok(hex::encode(alloc, opened)?)
}

/// Of a key, an initialization vector and plain bytes.
fn cbc_sealed(alloc: Global, case: &Case) -> Result<String> {
    let plain = case.hex(alloc, 2)?;
    let sealed = cbc_seal(alloc, &case.block(0)?, &case.block(1)?, plain.as_slice())?;
    Ok(hex::encode(alloc, sealed.as_slice())?)
}

/// Of a key, an initialization vector and sealed bytes.
fn cbc_opened(alloc: Global, case: &Case) -> Result<String> {
    let sealed = case.hex(alloc, 2)?;
    match cbc_open(alloc, &case.block(0)?, &case.block(1)?, sealed.as_slice())? {
        Some(plain) => Ok(hex::encode(alloc, plain.as_slice())?),
        None => Ok(String::from_str(alloc, "none")?),
    }
}

/// Of a key and a message.
fn code(alloc: Global, case: &Case) -> Result<String> {
    Ok(hex::encode(alloc, hmac(case.bytes(0), case.bytes(1)))?)
}

/// Of two codes in hex.
fn comparison(alloc: Global, case: &Case) -> Result<String> {
    let mut left = [0; 32];
    let mut right = [0; 32];
    hex::decode_to_slice(case.bytes(0), &mut left)?;
    hex::decode_to_slice(case.bytes(1), &mut right)?;
    let word = if same(&left, &right) { "same" } else { "other" };
    Ok(String::from_str(alloc, word)?)
}

/// Of a password, a salt and a number of rounds.
fn derived(alloc: Global, case: &Case) -> Result<String> {
    let rounds = case.str(2)?.parse::<u32>()?;
    ensure!(1 <= rounds, "no round");
    ensure!(rounds <= 100_000, "{rounds} rounds");
    Ok(hex::encode(alloc, pbkdf2(case.bytes(0), case.bytes(1), rounds))?)
}
