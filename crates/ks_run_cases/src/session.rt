//! A connection to `talk`, with all that it reads.

use crate::fails::Fails;
use crate::names::{Names, expanded, with_length};
use crate::run::{Outside, WHOLE};
use crate::world::{OpeningInput, World};
use anyhow::{Context, Result, ensure};
use ks_tables::Case;
use std::alloc::Global;
use std::rt::Files;

/// The words of a command that opens a connection.
pub const TALK: &str = "talk opening.json keys";

/// The bytes that a draw takes.
const DRAWN: usize = 64;

/// How much was read before a request.
#[derive(Clone, Copy)]
struct Mark {
    input: usize,
    readings: usize,
    random: usize,
}

/// A connection over an opening, as far as its requests were read.
pub struct Session {
    opening: OpeningInput,
    /// The folder beside the connection.
    place: String,
    pub fails: Fails,
    pub status: u8,
    /// The names that this session gives.
    pub names: Names,
    input: Vec<u8>,
    readings: Vec<u64>,
    random: Vec<u8>,
    /// How many calls drew random bytes.
    fills: u64,
    marks: Vec<Mark>,
}

impl Drop for Session {
    fn drop(self) {
        let Session {
            opening: _,
            place: _,
            fails: _,
            status: _,
            names: _,
            input: _,
            readings: _,
            random: _,
            fills: _,
            marks: _,
        } = self;
    }
}

impl Session {
    /// A connection over the opening of this name, without a request.
    pub fn over<R: Files + AllocGlobal>(rt: &R, world: &World, opening: &str) -> Result<Session> {
        let alloc = rt.alloc();
        let opening = world.opening(rt, opening)?;
        Ok(Session {
            place: opening.folder.clone()?,
            fails: Fails::NONE,
            status: 0,
            names: Names::new(alloc),
            input: Vec::new(alloc),
            readings: Vec::new(alloc),
            random: salts(alloc, opening.passwords)?,
            fills: u64::from(opening.passwords),
            marks: Vec::new(alloc),
            opening,
        })
    }

    /// Lets the session differ from others as its row says.
    pub fn set<R: AllocGlobal>(&mut self, rt: &R, world: &World, setting: &Case) -> Result<()> {
        let (folder, status) = (setting.str(2)?, setting.str(4)?);
        self.fails = Fails::read(setting.str(3)?)?;
        if !status.is_empty() {
            self.status = status.parse::<u8>()?;
        }
        if !folder.is_empty() {
            self.place = world.text(rt, if folder == "none" { "" } else { folder })?;
        }
        Ok(())
    }

    /// Adds a request, and what it needs of the clock and of random bytes.
    pub fn ask(
        &mut self,
        alloc: Global,
        world: &World,
        reading: &str,
        drawn: &str,
        request: &str,
    ) -> Result<()> {
        self.marks.push(Mark {
            input: self.input.len(),
            readings: self.readings.len(),
            random: self.random.len(),
        })?;
        self.need(alloc, reading, drawn)?;
        let request = expanded(alloc, request, &self.names, &world.names)?;
        let request = with_length(alloc, request.as_str())?;
        self.input.extend_from_slice(request.as_bytes())?;
        Ok(())
    }

    /// Adds a reading of the clock, and the random bytes of a draw, of which the hex digits tell the first; where a text is
    /// empty, there is none. A draw that fails takes none.
    pub fn need(&mut self, alloc: Global, reading: &str, drawn: &str) -> Result<()> {
        if !reading.is_empty() {
            self.readings.push(reading.parse::<u64>()?)?;
        }
        if drawn.is_empty() {
            return Ok(());
        }
        self.fills = self.fills.saturating_add(1);
        if self.fills == self.fails.fill {
            return Ok(());
        }
        let mut drawn = hex::decode(alloc, drawn)?;
        ensure!(drawn.len() <= DRAWN, "too many random bytes");
        drawn.resize(DRAWN, 0)?;
        self.random.extend_from_slice(drawn.as_slice())?;
        Ok(())
    }

    /// Whether nothing fails, and no reading of the clock is before another.
    pub fn is_plain(&self) -> bool {
        let mut last = 0;
        for reading in self.readings.iter() {
            if *reading < last {
                return false;
            }
            last = *reading;
        }
        self.status == 0 && self.fails.is_none() && self.opening.fails.is_none()
    }

    /// What two runs read that part the requests between them, so many of which go to the first.
    pub fn parted(&self, first: usize) -> Result<(Outside<'_>, Outside<'_>)> {
        let Mark {
            input,
            readings,
            random,
        } = *self.marks.get(first).context("no such request")?;
        let mut before = self.outside(WHOLE);
        let mut after = before;
        (before.input, after.input) = self.input.split_at(input.min(self.input.len()));
        (before.readings, after.readings) = self
            .readings
            .split_at(readings.min(self.readings.len()));
        (before.random, after.random) = self.random.split_at(random.min(self.random.len()));
        Ok((before, after))
    }

    /// What a run reads, in pieces of at most this length.
    pub fn outside(&self, longest: usize) -> Outside<'_> {
        Outside {
            file: self.opening.file.as_bytes(),
            folder: self.opening.folder.as_str(),
            opening_fails: self.opening.fails,
            input: self.input.as_slice(),
            readings: self.readings.as_slice(),
            random: self.random.as_slice(),
            place: self.place.as_str(),
            longest,
            fails: self.fails,
        }
    }
}

/// The random bytes of so many passwords: of the n-th 16 bytes n.
fn salts(alloc: Global, passwords: u8) -> Result<Vec<u8>> {
    let mut salts = Vec::new(alloc);
    for number in 0..passwords {
        salts.extend_from_slice(&[number.saturating_add(1); 16])?;
    }
    Ok(salts)
}
