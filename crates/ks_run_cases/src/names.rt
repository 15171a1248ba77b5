//! Names in angle brackets, which stand for longer texts.

use anyhow::{Context, Result};
use std::alloc::Global;

/// The name that stands for the length of a request's body.
const LENGTH: &str = "<length>";

/// Names and the texts for which they stand.
#[derive(Drop)]
pub struct Names {
    entries: Vec<(String, String)>,
}

impl Names {
    pub fn new(alloc: Global) -> Names {
        Names {
            entries: Vec::new(alloc),
        }
    }

    /// Lets a name stand for a text from now on.
    pub fn add(&mut self, alloc: Global, name: &str, text: &str) -> Result<()> {
        let name = String::from_str(alloc, name)?;
        let text = String::from_str(alloc, text)?;
        self.entries.push((name, text))?;
        Ok(())
    }

    /// The text for which a name stands, the later one where it stands for two.
    fn text(&self, name: &str) -> Option<&str> {
        let mut found = None;
        for (known, text) in &self.entries {
            if known.as_str() == name {
                found = Some(text.as_str());
            }
        }
        found
    }
}

/// A text with what its names stand for, of which `own` come first; `<length>` stays. A name that stands for nothing is
/// refused.
pub fn expanded(alloc: Global, text: &str, own: &Names, common: &Names) -> Result<String> {
    let mut made = String::new(alloc);
    for (at, piece) in text.split('<').enumerate() {
        if at == 0 {
            made.push_str(piece)?;
            continue;
        }
        let (name, rest) = piece.split_once('>').context("an open bracket")?;
        if name == "length" {
            made.push_str(LENGTH)?;
        } else {
            let found = own.text(name).or(common.text(name));
            made.push_str(found.context("an unknown name")?)?;
        }
        made.push_str(rest)?;
    }
    Ok(made)
}

/// The text of a request, with the length of its body for `<length>`.
pub fn with_length(alloc: Global, text: &str) -> Result<String> {
    let Some((front, rest)) = text.split_once(LENGTH) else {
        return Ok(String::from_str(alloc, text)?);
    };
    let (_, body) = text.split_once("\r\n\r\n").context("no body")?;
    Ok(format!(in alloc; "{front}{}{rest}", body.len())?)
}

/// The token of a response; the empty text where it has none.
pub fn token_of(response: &[u8]) -> Result<&str> {
    let response = std::str::from_utf8(response)?;
    let Some((_, rest)) = response.split_once("X-Subject-Token: ") else {
        return Ok("");
    };
    match rest.split_once("\r\n") {
        Some((token, _)) => Ok(token),
        None => Ok(""),
    }
}
