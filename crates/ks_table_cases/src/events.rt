//! Revocations, each at the greatest moment of its time.
ghost use Rattle.std.specs.Prelude.{◌≡◌};

use anyhow::Result;
use ks_base::{EventRow, Revoke};
use ks_revoke::{RevokeFault, Revoked};
use std::alloc::Global;

/// Revocations, with the life of tokens, and the greatest moment so far, which each new one has.
#[derive(Drop)]
pub struct Events {
    pub life: u64,
    pub high: u64,
    pub revoked: Revoked,
    pub ghost life_is: { life ≡ revoked.life },
    pub ghost high_is: { high ≡ revoked.high },
}

impl Events {
    /// No revocations, for tokens that live so many seconds.
    pub fn new(alloc: Global, life: u64) -> Events {
        Events {
            life,
            high: 0,
            revoked: Revoked::new(alloc, life),
        }
    }

    /// Revokes at the greatest moment so far, where there is room.
    pub fn add(&mut self, what: &Revoke) -> Result<(), RevokeFault> {
        self.revoked.room(1)?;
        self.revoked.add(EventRow {
            what: *what,
            moment: self.high,
        });
        Ok(())
    }

    pub fn advance(&mut self, moment: u64) {
        self.high = self.high.max(moment);
        self.revoked.advance(moment);
    }

    /// The greatest moments that are lent.
    pub fn marks(&self, alloc: Global) -> Result<Vec<EventRow>> {
        let mut rows = Vec::new(alloc);
        for row in self.revoked.marks() {
            rows.push(*row)?;
        }
        Ok(rows)
    }
}
