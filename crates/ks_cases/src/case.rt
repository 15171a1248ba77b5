//! What cells of a case stand for beyond text and numbers.

use anyhow::{Context, Result};
use ks_base::{Key, Text};
use ks_tables::Case;
use std::alloc::Global;

/// The key whose two halves the cell at this place has in hex, with a blank between them.
pub fn key_at(case: &Case, at: usize) -> Result<Key> {
    let (first, second) = case.str(at)?.split_once(' ').context("one half of a key")?;
    let mut signing = [0; 16];
    let mut encryption = [0; 16];
    hex::decode_to_slice(first, &mut signing)?;
    hex::decode_to_slice(second, &mut encryption)?;
    Ok(Key {
        signing,
        encryption,
    })
}

/// The text of these bytes, which are refused where they are none.
pub fn read_text(alloc: Global, bytes: &[u8]) -> Result<Text> {
    Text::read(alloc, bytes)?.context("no text")
}
