//! The table of rings.

use crate::stepped::Stepped;
use anyhow::{Context, Result, bail};
use ks_base::{Key, LoadFault};
use ks_ring::HeldKey;
use ks_tables::{Case, try_table};
use std::alloc::Global;
use std::rt::Files;

pub fn try_tables<R: Files + Print + AllocGlobal>(rt: &R) -> Result<()> {
    try_table(rt, "rings", steps_taken)
}

/// Of the first keys and of steps, which semicolons part: the first ring, and what each step answers.
fn steps_taken(alloc: Global, case: &Case) -> Result<String> {
    let mut ring = match Stepped::new(read_keys(alloc, case.str(0)?)?.as_slice()) {
        Ok(ring) => ring,
        Err(fault) => return fault_text(alloc, fault),
    };
    let mut said = held_text(alloc, ring.held())?;
    for step in case.str(1)?.split(';') {
        let step = step.trim_matches(' ');
        if !step.is_empty() {
            said.push_str("; ")?;
            said.push_str(taken(alloc, &mut ring, step)?.as_str())?;
        }
    }
    Ok(said)
}

/// What a step answers: `load KEYS`, `rotate KEY MOST`, `primary` or `number N`.
fn taken(alloc: Global, ring: &mut Stepped, step: &str) -> Result<String> {
    if let Some(keys) = step.strip_prefix("load") {
        return match ring.load(read_keys(alloc, keys)?.as_slice())? {
            Ok(()) => held_text(alloc, ring.held()),
            Err(fault) => fault_text(alloc, fault),
        };
    }
    if let Some(words) = step.strip_prefix("rotate ") {
        let (byte, most) = words.split_once(' ').context("a rotation of one word")?;
        ring.rotate(key_of(byte)?, most.parse::<u32>()?)?;
        return held_text(alloc, ring.held());
    }
    if let Some(number) = step.strip_prefix("number ") {
        return match ring.by_number(number.parse::<u64>()?) {
            Some(held) => one_text(alloc, held),
            None => Ok(String::from_str(alloc, "none")?),
        };
    }
    match step {
        "primary" => one_text(alloc, ring.primary()),
        _ => bail!("no step {step}"),
    }
}

/// Keys with their indices, as `3:7` for the key of the byte 7 at the index 3, with blanks between them.
fn read_keys(alloc: Global, text: &str) -> Result<Vec<(u32, Key)>> {
    let mut keys = Vec::new(alloc);
    for word in text.split_whitespace() {
        let (index, byte) = word.split_once(':').context("a key without an index")?;
        keys.push((index.parse::<u32>()?, key_of(byte)?))?;
    }
    Ok(keys)
}

/// The key whose signing half is this byte alone, and whose other half is its complement.
fn key_of(byte: &str) -> Result<Key> {
    let byte = byte.parse::<u8>()?;
    Ok(Key {
        signing: [byte; 16],
        encryption: [byte ^ 255; 16],
    })
}

/// The keys of a ring as `INDEX/NUMBER:BYTE`, with blanks between them.
fn held_text(alloc: Global, held: &[HeldKey]) -> Result<String> {
    let mut text = String::new(alloc);
    for held in held {
        if !text.is_empty() {
            text.push(' ')?;
        }
        text.push_str(one_text(alloc, held)?.as_str())?;
    }
    Ok(text)
}

fn one_text(alloc: Global, held: &HeldKey) -> Result<String> {
    let byte = held.key.signing[0];
    if held.key.signing != [byte; 16] || held.key.encryption != [byte ^ 255; 16] {
        bail!("a key of other bytes");
    }
    Ok(format!(in alloc; "{}/{}:{byte}", held.index, held.number)?)
}

fn fault_text(alloc: Global, fault: LoadFault) -> Result<String> {
    match fault {
        LoadFault::Empty => Ok(String::from_str(alloc, "empty")?),
        LoadFault::TooMany => Ok(String::from_str(alloc, "too many")?),
        LoadFault::Repeated(index) => Ok(format!(in alloc; "repeated {index}")?),
    }
}
