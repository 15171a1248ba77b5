//! A ring that takes few steps, so that a number is left for each key.
ghost use Rattle.std.specs.Prelude.{◌+◌, ◌*◌, ◌-◌, ◌^◌, ◌<◌, ◌≤◌, IfOk};
ghost use Rattle.ks_ring.specs.Rings.{highest};

use anyhow::{Result, ensure};
use ks_base::{Key, LoadFault};
use ks_ring::{HeldKey, Ring};

/// A ring, and how many steps it may still take. Each of them gives 32 numbers at most.
#[derive(Drop)]
pub struct Stepped {
    ring: Ring,
    left: u32,
    ghost few: { ring.next + 32 * left ≤ 32032 },
}

const MOST_STEPS: u32 = 1_000;

impl Stepped {
    pub fn new(keys: &[(u32, Key)]) -> Result<Stepped, LoadFault> {
        let ring = first(keys)?;
        Ok(Stepped {
            ring,
            left: MOST_STEPS,
        })
    }

    pub fn held(&self) -> &[HeldKey] {
        self.ring.held()
    }

    pub fn primary(&self) -> &HeldKey {
        self.ring.primary()
    }

    pub fn by_number(&self, number: u64) -> Option<&HeldKey> {
        self.ring.by_number(number)
    }

    pub fn load(&mut self, keys: &[(u32, Key)]) -> Result<Result<(), LoadFault>> {
        ensure!(self.left > 0, "too many steps");
        self.left -= 1;
        Ok(load(&mut self.ring, keys))
    }

    /// Rotates, where so many keys may be left and an index is left for the staged one.
    pub fn rotate(&mut self, new: Key, most: u32) -> Result<()> {
        ensure!(self.left > 0, "too many steps");
        ensure!(2 <= most, "too few keys are to be left");
        ensure!(most <= 32, "{most} keys are to be left");
        ensure!(self.ring.primary().index < 999_999_999, "no index is left");
        self.left -= 1;
        rotate(&mut self.ring, new, most);
        Ok(())
    }
}

fn first(keys: &[(u32, Key)]) -> Result<Ring, LoadFault>
    ensures { IfOk result (λ ring. ring.next ≤ 32) }
{
    Ring::new(keys)
}

#[tactic(auto, using(crate::proofs::StepLemmas::loaded_few))]
fn load(ring: &mut Ring, keys: &[(u32, Key)]) -> Result<(), LoadFault>
    requires { ring.old.next < 2 ^ 64 - 32 }
    ensures { ring.new.next ≤ ring.old.next + 32 }
{
    ring.load(keys)?;
    Ok(())
}

#[tactic(auto, using(crate::proofs::StepLemmas::rotated_few))]
fn rotate(ring: &mut Ring, new: Key, most: u32)
    requires least { 2 ≤ most }
    requires most { most ≤ 32 }
    requires index { highest ring.old.held < 999999999 }
    requires number { ring.old.next < 2 ^ 64 - 32 }
    ensures { ring.new.next ≤ ring.old.next + 32 }
{
    ring.rotate(new, most);
}
