//! Which calls of the outside fail.

use anyhow::{Context, Result, bail};

/// The numbers of the calls that fail, from 1: of reading the opening file, of the folder, of drawing, of accepting a link, of
/// reading the input and of writing. 0 stands for none.
#[derive(Clone, Copy)]
pub struct Fails {
    pub file: u64,
    pub folder: u64,
    pub fill: u64,
    pub accept: u64,
    pub read: u64,
    pub write: u64,
}

impl Fails {
    pub const NONE: Fails = Fails {
        file: 0,
        folder: 0,
        fill: 0,
        accept: 0,
        read: 0,
        write: 0,
    };

    /// Whether nothing fails.
    pub fn is_none(&self) -> bool {
        let Fails {
            file,
            folder,
            fill,
            accept,
            read,
            write,
        } = *self;
        [file, folder, fill, accept, read, write] == [0; 6]
    }

    /// What a cell says, as `fill 3`; an empty one says that nothing fails.
    pub fn read(cell: &str) -> Result<Fails> {
        let mut fails = Fails::NONE;
        if cell.is_empty() {
            return Ok(fails);
        }
        let (what, number) = cell.split_once(' ').context("no number of a call")?;
        let number = number.parse::<u64>()?;
        match what {
            "file" => fails.file = number,
            "folder" => fails.folder = number,
            "fill" => fails.fill = number,
            "read" => fails.read = number,
            "write" => fails.write = number,
            _ => bail!("nothing that fails"),
        }
        Ok(fails)
    }
}
