//! The tables of payloads.

use anyhow::{Result, bail};
use ks_base::Id;
use ks_payload::Payload;
use ks_tables::{Case, try_table};
use std::alloc::Global;
use std::rt::Files;

pub fn try_tables<R: Files + Print + AllocGlobal>(rt: &R) -> Result<()> {
    try_table(rt, "payloads_read", payload_read)?;
    try_table(rt, "payloads_written", payload_written)?;
    try_table(rt, "payloads_cut", payload_cut)
}

/// Of bytes in hex.
fn payload_read(alloc: Global, case: &Case) -> Result<String> {
    match Payload::read(case.hex(alloc, 0)?.as_slice())? {
        Some(payload) => {
            let _user = &payload.user;
            payload_text(alloc, &payload)
        }
        None => Ok(String::from_str(alloc, "none")?),
    }
}

/// The fields in their order, of which those that are missing are left out.
fn payload_text(alloc: Global, payload: &Payload) -> Result<String> {
    let user = std::str::from_utf8(payload.user.as_slice())?;
    let mut text = format!(in alloc;
        "kind {} methods {} user {user}",
        payload.kind, payload.methods
    )?;
    push_id(alloc, &mut text, "domain", &payload.domain)?;
    push_id(alloc, &mut text, "project", &payload.project)?;
    push_id(alloc, &mut text, "trust", &payload.trust)?;
    push_id(alloc, &mut text, "credential", &payload.credential)?;
    let audit = hex::encode(alloc, payload.audit)?;
    text.push_str(format!(in alloc; " expires {} audit {audit}", payload.expires)?.as_str())?;
    if let Some(chain) = &payload.chain {
        let chain = hex::encode(alloc, chain)?;
        text.push_str(format!(in alloc; " chain {chain}")?.as_str())?;
    }
    Ok(text)
}

fn push_id(alloc: Global, text: &mut String, name: &str, id: &Option<Id>) -> Result<()> {
    if let Some(id) = id {
        let id = std::str::from_utf8(id.as_slice())?;
        text.push_str(format!(in alloc; " {name} {id}")?.as_str())?;
    }
    Ok(())
}

/// Of bytes in hex, read and written again.
fn payload_written(alloc: Global, case: &Case) -> Result<String> {
    let bytes = case.hex(alloc, 0)?;
    let Ok(Some(payload)) = Payload::read(bytes.as_slice()) else {
        bail!("no payload");
    };
    let _user = &payload.user;
    let written = payload.write(alloc)?;
    Ok(hex::encode(alloc, written.as_slice())?)
}

/// Of bytes in hex: how many of their fronts are payloads, of all that are shorter.
fn payload_cut(alloc: Global, case: &Case) -> Result<String> {
    let bytes = case.hex(alloc, 0)?;
    let bytes = bytes.as_slice();
    let mut count: usize = 0;
    for end in 0..bytes.len() {
        if is_payload(&bytes[..end])? {
            count = count.saturating_add(1);
        }
    }
    Ok(format!(in alloc; "{count} of {}", bytes.len())?)
}

fn is_payload(bytes: &[u8]) -> Result<bool> {
    match Payload::read(bytes)? {
        Some(payload) => {
            let _user = &payload.user;
            Ok(true)
        }
        None => Ok(false),
    }
}
