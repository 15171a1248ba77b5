//! Laws of the numbers. Their functions do nothing: their contracts are the laws. Together they say that no
//! number is given twice.
ghost use Rattle.ks_ring.specs.Laws.{CountsFromZero, LoadingKeepsNumbers, RotationKeepsNumbers, StagesTheNewKey, StagesNoOther, LoadingNeverFalls, LoadingAddsFew, RotationRises};

/// The first ring numbers its keys from 0 on by rising index.
pub fn new_numbers()
    ensures { CountsFromZero }
{}

/// A key that is held after loading was held before with its number, or has one that was never given.
pub fn loaded_numbers()
    ensures { LoadingKeepsNumbers }
{}

/// So it is after a rotation, where the staged key is the new one, with the next number.
pub fn rotated_numbers()
    ensures kept { RotationKeepsNumbers }
    ensures staged { StagesTheNewKey }
    ensures alone { StagesNoOther }
{}

/// The next number never falls, and rises by one at most for each key.
pub fn next_number()
    ensures loading { LoadingNeverFalls }
    ensures few { LoadingAddsFew }
    ensures rotation { RotationRises }
{}
