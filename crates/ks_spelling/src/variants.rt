//! The variants of enums, each behind the byte of its place.
ghost use Rattle.std.specs.Prelude.{OnOk};
ghost use Rattle.ks_spelling.specs.Codes.{WritesAt};
ghost use Rattle.ks_spelling.specs.Wholes.{both, nothing};

use crate::Spelled;
use ks_base::Memory;

/// Puts the place of a variant that holds nothing behind the bytes.
pub fn write_place(place: u8, into: &mut Vec<u8>) -> Result<(), Memory>
    ensures { OnOk result (WritesAt place nothing tt into.old.items into.new.items) }
{
    into.push(place)?;
    Ok(())
}

/// Puts the place of a variant and what it holds behind the bytes.
pub fn write_at<T: Spelled>(place: u8, held: &T, into: &mut Vec<u8>) -> Result<(), Memory>
    ensures { OnOk result (WritesAt place T.code held.now into.old.items into.new.items) }
{
    into.push(place)?;
    held.write_to(into)
}

/// The same of a variant that holds two values.
pub fn write_two_at<A: Spelled, B: Spelled>(
    place: u8,
    first: &A,
    second: &B,
    into: &mut Vec<u8>,
) -> Result<(), Memory>
    ensures { OnOk result (WritesAt place (both A.code B.code) (first.now, second.now) into.old.items into.new.items) }
{
    into.push(place)?;
    first.write_to(into)?;
    second.write_to(into)
}
