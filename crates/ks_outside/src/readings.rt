ghost use Rattle.std.specs.Prelude.{◌≡◌, ℕ, IfOk};
ghost use Rattle.ks_outside.specs.Desks.{next_reading, later_readings};

use ks_base::Memory;
use std::alloc::Global;
use std::marker::Model;

/// The readings of a clock that are still to come. The last one comes again and again.
#[derive(Drop)]
pub struct Readings {
    all: Vec<u64>,
    at: usize,
}

impl Model for Readings {
    ghost use Rattle.std.specs.Prelude.{◌≤◌, ℕ, List, length, drop};

    ghost Value = { List ℕ };

    ghost view = { λ r. drop r.at r.all.items };

    ghost invariant = { λ r. r.at ≤ length r.all.items };
}

impl Readings {
    /// All of these are to come.
    pub fn new(alloc: Global, readings: &[u64]) -> Result<Readings, Memory>
        ensures { IfOk result (λ made. made ≡ readings.now) }
    {
        Ok(Readings {
            all: Vec::from_slice(alloc, readings)?,
            at: 0,
        })
    }

    /// The next reading, or 0 where there was none.
    pub fn next(&mut self) -> u64
        ensures reading { result ≡ next_reading self.old }
        ensures later { self.new ≡ later_readings self.old }
    {
        match self.all.as_slice().split_at(self.at).1 {
            [] => 0,
            [only] => *only,
            [first, _, ..] => {
                let reading = *first;
                self.at += 1;
                reading
            }
        }
    }
}
