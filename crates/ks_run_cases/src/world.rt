//! What connections stand on: names, openings, and how single sessions differ from the others.

use crate::fails::Fails;
use crate::names::{Names, expanded};
use anyhow::{Context, Result};
use ks_tables::{Case, Row, read_rows};
use std::fs;
use std::rt::Files;

/// What a server opens with.
pub struct OpeningInput {
    pub file: String,
    pub folder: String,
    /// How many passwords are derived.
    pub passwords: u8,
    pub fails: Fails,
}

impl Drop for OpeningInput {
    fn drop(self) {
        let OpeningInput {
            file: _,
            folder: _,
            passwords: _,
            fails: _,
        } = self;
    }
}

/// What all connections share: the names, and the tables of openings and of sessions.
pub struct World {
    pub names: Names,
    openings: Vec<Row>,
    sessions: Vec<Row>,
}

impl Drop for World {
    fn drop(self) {
        let World {
            names: _,
            openings: _,
            sessions: _,
        } = self;
    }
}

impl World {
    pub fn read<R: Files + AllocGlobal>(rt: &R) -> Result<World> {
        let mut names = Names::new(rt.alloc());
        add_names(rt, &mut names, "parts", 1)?;
        add_names(rt, &mut names, "sealed", 5)?;
        Ok(World {
            names,
            openings: read_rows(rt, "openings")?,
            sessions: read_rows(rt, "sessions")?,
        })
    }

    /// The opening of this name, whose file is one of `data/` or stands in its cell.
    pub fn opening<R: Files + AllocGlobal>(&self, rt: &R, name: &str) -> Result<OpeningInput> {
        let case = row_of(self.openings.as_slice(), name).context("no such opening")?;
        let cell = case.str(1)?;
        let file = if cell.ends_with(".json") {
            fs::read_to_string(rt, cell)?
        } else {
            self.text(rt, cell)?
        };
        Ok(OpeningInput {
            file,
            folder: self.text(rt, case.str(2)?)?,
            passwords: case.str(3)?.parse::<u8>()?,
            fails: Fails::read(case.str(4)?)?,
        })
    }

    /// How a session opens and ends, where it does so otherwise than most.
    pub fn setting(&self, session: &str) -> Option<Case<'_>> {
        row_of(self.sessions.as_slice(), session)
    }

    /// A cell with what its names stand for.
    pub fn text<R: AllocGlobal>(&self, rt: &R, cell: &str) -> Result<String> {
        expanded(rt.alloc(), cell, &Names::new(rt.alloc()), &self.names)
    }
}

/// Adds the names of a table, whose texts stand in this column.
fn add_names<R: Files + AllocGlobal>(
    rt: &R,
    names: &mut Names,
    table: &str,
    column: usize,
) -> Result<()> {
    for row in read_rows(rt, table)? {
        let case = row.case();
        names.add(rt.alloc(), case.str(0)?, case.str(column)?)?;
    }
    Ok(())
}

/// The row whose first cell is this name.
fn row_of<'a>(rows: &'a [Row], name: &str) -> Option<Case<'a>> {
    for row in rows {
        if row.case().bytes(0) == name.as_bytes() {
            return Some(row.case());
        }
    }
    None
}
