//! A plain journal, for which a front stands.
ghost use Rattle.std.specs.Prelude.{◌≡◌, [], OnOk, OnErr};
ghost use Rattle.ks_turn_cases.specs.Journals.{Added};

use ks_machine::{Change, Entry};
use ks_turn::Journaled;
use std::alloc::{AllocError, Global};

/// Changes, and the highest moment.
#[derive(Drop)]
pub struct Journal {
    pub entries: Vec<Entry>,
    pub high: u64,
}

impl Journaled for Journal {
    ghost use Rattle.std.specs.Prelude.{length};
    ghost use Rattle.ks_turn_cases.specs.Journals.{IsJournalOf};

    ghost stands = { λ journal f. IsJournalOf journal.entries.items journal.high f };

    ghost kept = { λ journal. length journal.entries.items };

    fn front(&self) -> (u64, u64) {
        (self.entries.len() as u64, self.high)
    }

    ghost keeps = { λ journal f stands. stands.kept };
}

impl Journal {
    pub fn new(alloc: Global) -> Journal
        ensures changes { result.entries.items ≡ [] }
        ensures high { result.high ≡ 0 }
    {
        Journal {
            entries: Vec::new(alloc),
            high: 0,
        }
    }

    /// Adds a change, at the reading or at the highest moment where that is higher.
    pub fn add(&mut self, reading: u64, change: Change) -> Result<(), AllocError>
        ensures added { OnOk result (Added self.old.entries.items self.old.high reading self.new.entries.items self.new.high) }
        ensures same { OnErr result ((self.new.entries.items ≡ self.old.entries.items) × (self.new.high ≡ self.old.high)) }
    {
        self.entries.reserve(1)?;
        let moment = self.high.max(reading);
        let entry = Entry {
            number: self.entries.len() as u64,
            moment,
            change,
        };
        self.entries.push_reserved(entry);
        self.high = moment;
        Ok(())
    }

    /// Whether the changes are numbered from 0, at moments that never fall and end at the highest.
    pub fn is_in_order(&self) -> bool {
        let mut number = 0;
        let mut moment = 0;
        for entry in &self.entries {
            if entry.number != number || entry.moment < moment {
                return false;
            }
            number += 1;
            moment = entry.moment;
        }
        moment == self.high
    }
}
