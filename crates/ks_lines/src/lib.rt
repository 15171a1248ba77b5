//! The line that a person reads for each fault of an opening file.
#![tactic(auto)]

ghost use Rattle.std.specs.Prelude.{◌≡◌, IfOk};
ghost use Rattle.ks_shape.specs.Readings.{Reads};
ghost use Rattle.ks_lines.specs.FormLines.{opening_line, state_line};
ghost use Rattle.ks_written.specs.Written.{file_of};

mod absent;
mod form;
mod named;
mod rows;
mod spot;

use crate::form::{opening_said, shape_line};
use crate::rows::row_line;
use ks_base::{Memory, ShapeRefusal, Text};
use ks_json::Scratch;
use ks_machine::OpenFault;
use ks_setup::OpeningFault;
use ks_written::{Written, read_file, read_written};
use std::alloc::Global;

/// What is wrong with the form, the policy or the keys of an opening file, behind the path of the place where it is, as
/// `users[1].name: missing; a text of 1 to 255 bytes is wanted`.
pub fn opening_line(alloc: Global, fault: &OpeningFault) -> Result<Text, Memory>
    ensures { IfOk result (λ line. line ≡ opening_line fault.now) }
{
    let line = opening_said(alloc, fault)?;
    Text::of(alloc, line.as_str())
}

#[tactic(auto, unfolding(ks_written::specs::Written::file_of))]
fn read_rows(alloc: Global, file: &[u8]) -> Result<Written, ShapeRefusal>
    ensures { Reads result (file_of file.now) }
{
    let mut scratch = Scratch::new(alloc);
    let document = read_file(alloc, file, &mut scratch)?;
    let written = read_written(alloc, &document)?;
    Ok(written)
}

/// What is wrong with the rows of this opening file, behind the path of the first row that has the fault, as
/// `users[1].domain_id: no domain has the id "x"`. Rows are counted from 0, and where two rows meet the later one is
/// the place, and the other one is named behind it.
///
/// The fault is to be one of this file. A row that is not found in it is not named, and of a file that cannot be read
/// the fault of its form is told.
#[tactic(auto, unfolding(crate::specs::FormLines::state_line))]
pub fn state_line(alloc: Global, file: &[u8], fault: &OpenFault) -> Result<Text, Memory>
    ensures { IfOk result (λ line. line ≡ state_line file.now fault.now) }
{
    let line = match read_rows(alloc, file) {
        Ok(written) => row_line(alloc, &written, fault)?,
        Err(ShapeRefusal::Shape(shape)) => shape_line(alloc, &shape)?,
        Err(ShapeRefusal::Memory) => return Err(Memory),
    };
    Text::of(alloc, line.as_str())
}
