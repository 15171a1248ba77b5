//! The cells of a line, and the bytes that each stands for.

use crate::responses::usual_response;
use anyhow::{Context, Result, ensure};
use std::alloc::{AllocError, Global};

/// The most times that bytes are repeated.
const MOST: u32 = 131_072;

/// The bytes of each cell of a line, which is refused where an escape is not whole.
pub fn read_cells(alloc: Global, line: &str) -> Result<Vec<Vec<u8>>> {
    let mut cells = Vec::new(alloc);
    for cell in line.split('|') {
        cells.push(read_cell(alloc, cell.trim_matches(' '))?)?;
    }
    Ok(cells)
}

fn read_cell(alloc: Global, cell: &str) -> Result<Vec<u8>> {
    match split_head(cell) {
        Some((own, body)) => usual_response(alloc, own, read_text(alloc, body)?.as_slice()),
        None => read_text(alloc, cell),
    }
}

/// The status and the own fields of a response with the usual head, and its body; nothing of another cell.
fn split_head(cell: &str) -> Option<(&str, &str)> {
    let (own, body) = cell.strip_prefix('<')?.split_once('>')?;
    matches!(own.as_bytes(), [b'0'..=b'9', ..]).then_some((own, body))
}

fn read_text(alloc: Global, text: &str) -> Result<Vec<u8>> {
    let mut bytes = Vec::new(alloc);
    for (at, piece) in text.split('\\').enumerate() {
        let plain = if at == 0 {
            piece
        } else {
            push_escape(alloc, &mut bytes, piece)?
        };
        bytes.extend_from_slice(plain.as_bytes())?;
    }
    Ok(bytes)
}

/// Adds what a backslash and the text behind it stand for, and gives what stands behind that.
fn push_escape<'a>(alloc: Global, bytes: &mut Vec<u8>, piece: &'a str) -> Result<&'a str> {
    if let Some(rest) = piece.strip_prefix('r') {
        bytes.push(b'\r')?;
        return Ok(rest);
    }
    if let Some(rest) = piece.strip_prefix('n') {
        bytes.push(b'\n')?;
        return Ok(rest);
    }
    push_braces(alloc, bytes, piece)
}

/// Adds what a text in braces stands for, and gives what stands behind the closing brace.
fn push_braces<'a>(alloc: Global, bytes: &mut Vec<u8>, piece: &'a str) -> Result<&'a str> {
    let (head, rest) = piece
        .split_once('{')
        .context("a backslash without a brace")?;
    let (body, rest) = rest.split_once('}').context("an open brace")?;
    let times = read_times(head.trim_end_matches('x'))?;
    if head.ends_with('x') {
        push_times(bytes, hex::decode(alloc, body)?.as_slice(), times)?;
    } else {
        push_times(bytes, body.as_bytes(), times)?;
    }
    Ok(rest)
}

fn push_times(bytes: &mut Vec<u8>, piece: &[u8], times: u32) -> Result<(), AllocError> {
    for _ in 0..times {
        bytes.extend_from_slice(piece)?;
    }
    Ok(())
}

fn read_times(digits: &str) -> Result<u32> {
    if digits.is_empty() {
        return Ok(1);
    }
    let times = digits.parse::<u32>()?;
    ensure!(times <= MOST, "{times} times");
    Ok(times)
}
