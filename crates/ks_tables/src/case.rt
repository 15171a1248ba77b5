//! One case of a table.

use anyhow::Result;
use std::alloc::Global;

/// Cells of a row, each as the bytes that it stands for: of a case those before the answer.
#[derive(Clone, Copy)]
pub struct Case<'a> {
    cells: &'a [Vec<u8>],
}

impl<'a> Case<'a> {
    /// A case of these cells.
    pub(crate) fn new(cells: &'a [Vec<u8>]) -> Case<'a> {
        Case { cells }
    }

    /// The cell at this place; empty where there is none.
    pub fn bytes(&self, at: usize) -> &'a [u8] {
        match self.cells.get(at) {
            Some(cell) => cell.as_slice(),
            None => &[],
        }
    }

    /// The cell at this place, which is refused where it is no text.
    pub fn str(&self, at: usize) -> Result<&'a str> {
        Ok(std::str::from_utf8(self.bytes(at))?)
    }

    /// The decimal in the cell at this place, which is refused where it is none.
    pub fn number(&self, at: usize) -> Result<u64> {
        Ok(self.str(at)?.parse::<u64>()?)
    }

    /// The same for a number of bytes or of calls.
    pub fn size(&self, at: usize) -> Result<usize> {
        Ok(self.str(at)?.parse::<usize>()?)
    }

    /// The bytes whose hex digits the cell at this place is, which is refused where it has others.
    pub fn hex(&self, alloc: Global, at: usize) -> Result<Vec<u8>> {
        Ok(hex::decode(alloc, self.bytes(at))?)
    }

    /// The 16 bytes whose hex digits the cell at this place is, which is refused where it is none.
    pub fn block(&self, at: usize) -> Result<[u8; 16]> {
        let mut block = [0; 16];
        hex::decode_to_slice(self.bytes(at), &mut block)?;
        Ok(block)
    }
}
