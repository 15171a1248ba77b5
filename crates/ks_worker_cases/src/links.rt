//! The table of links.

use crate::calls::READING;
use anyhow::{Context, Result, ensure};
use ks_outside::{MemoryDesk, MemoryLink, MemorySink, MemorySource};
use ks_tables::{Case, Row, read_rows};
use std::alloc::Global;
use std::rt::Files;

/// The bytes that a draw takes.
const DRAWN: usize = 64;

/// No piece is longer, and no output.
const WHOLE: usize = 65_536;

/// What a link brings, what its desk draws for it, and all that is to be written to it.
pub struct Link {
    name: String,
    drawn: Vec<u8>,
    request: Vec<u8>,
    response: Vec<u8>,
}

impl Drop for Link {
    fn drop(self) {
        let Link {
            name: _,
            drawn: _,
            request: _,
            response: _,
        } = self;
    }
}

/// The links by their names.
#[derive(Drop)]
pub struct Links {
    links: Vec<Link>,
}

impl Links {
    /// Reads the table.
    pub fn read<R: Files + AllocGlobal>(rt: &R) -> Result<Links> {
        let mut links = Vec::new(rt.alloc());
        for row in read_rows(rt, "links")? {
            links.push(read_link(rt.alloc(), row)?)?;
        }
        Ok(Links { links })
    }

    /// The link of this name.
    pub fn link(&self, name: &str) -> Result<&Link> {
        let mut found = None;
        for link in &self.links {
            if link.name.as_str() == name {
                found = Some(link);
            }
        }
        found.context("no such link")
    }
}

fn read_link(alloc: Global, row: Row) -> Result<Link> {
    let case = row.case();
    let mut drawn = case.hex(alloc, 1)?;
    ensure!(drawn.len() <= DRAWN, "too many random bytes");
    drawn.resize(DRAWN, 0)?;
    Ok(Link {
        name: String::from_str(alloc, case.str(0)?)?,
        drawn,
        request: Vec::from_slice(alloc, case.bytes(2))?,
        response: Vec::from_slice(alloc, case.bytes(3))?,
    })
}

impl Link {
    /// A desk of this link alone, whose accepts of these numbers fail, counted from 1.
    pub fn desk(&self, alloc: Global, fail_accepts: &[u64]) -> Result<MemoryDesk> {
        let source = MemorySource::new(alloc, self.request.as_slice(), &[], WHOLE)?;
        let sink = MemorySink::new(alloc, WHOLE, &[], WHOLE)?;
        let mut links = Vec::new(alloc);
        links.push(MemoryLink::new(source, sink))?;
        let drawn = self.drawn.as_slice();
        Ok(MemoryDesk::new(alloc, links, &[READING], drawn, fail_accepts, &[])?)
    }

    /// Whether the desk got this one link back, with its response.
    pub fn is_answered(&self, desk: &MemoryDesk) -> bool {
        match desk.given_back() {
            [link] => link.written() == self.response.as_slice(),
            _ => false,
        }
    }
}
