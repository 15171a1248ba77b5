//! Who makes changes.
ghost use Rattle.std.specs.Prelude.{◌≡◌, ◌+◌, ◌<◌, ◌≤◌, ◌^◌, length, false};
ghost use Rattle.ks_turn_cases.specs.Makes.{Made};
ghost use Rattle.ks_turn_cases.specs.Journals.{Grew};

use crate::journal::Journal;
use ks_machine::{Change, Entry};
use ks_turn::{First, Journaled, Pass, Turn};
use std::sync::Wait;

/// Makes changes, each of which says who made it and how many it had made before.
#[derive(Drop)]
pub struct Maker {
    name: u64,
    pub made: u64,
    /// Whether a hold ever told it less than it had seen.
    pub fell_behind: bool,
    dice: u64,
}

impl Maker {
    /// One that has made some changes already.
    pub fn new(name: u64, made: u64) -> Maker
        ensures made { result.made ≡ made }
        ensures ahead { result.fell_behind ≡ false }
    {
        Maker {
            name,
            made,
            fell_behind: false,
            dice: name.wrapping_mul(0x9e37_79b9).wrapping_add(made),
        }
    }

    /// A number below `sides`, by chance.
    pub fn roll(&mut self, sides: u64) -> u64
        requires { 0 < sides }
        ensures below { result < sides }
        ensures made { self.new.made ≡ self.old.made }
        ensures ahead { self.new.fell_behind ≡ self.old.fell_behind }
    {
        self.dice = self
            .dice
            .wrapping_mul(6_364_136_223_846_793_005)
            .wrapping_add(1_442_695_040_888_963_407);
        (self.dice >> 33) % sides
    }

    fn next_change(&self) -> Change {
        let mut audit = [0; 16];
        audit[..8].copy_from_slice(&self.name.to_be_bytes());
        audit[8..].copy_from_slice(&self.made.to_be_bytes());
        Change::RevokeToken(audit)
    }

    /// How many of the changes are its own, or None where they are not its first ones in their order.
    pub fn own_among(name: u64, entries: &[Entry]) -> Option<u64> {
        let mut maker = Maker::new(name, 0);
        for entry in entries {
            let Change::RevokeToken(audit) = &entry.change else {
                return None;
            };
            let (whose, before) = audit.split_at(8);
            if whose == maker.name.to_be_bytes().as_slice() {
                if before != maker.made.to_be_bytes().as_slice() {
                    return None;
                }
                maker.made = maker.made.checked_add(1)?;
            }
        }
        Some(maker.made)
    }

    /// Looks whether the journal has all that was seen, and adds a change where there is memory.
    fn add_to(&mut self, journal: &mut Journal, seen: (u64, u64))
        requires room { self.old.made < 2 ^ 63 }
        requires ahead { (seen.0 ≤ length journal.old.entries.items) × (seen.1 ≤ journal.old.high) }
        ensures grew { Grew journal.old.entries.items journal.old.high (self.old.made + 1) journal.new.entries.items journal.new.high self.old.made self.new.made }
        ensures ahead { self.new.fell_behind ≡ self.old.fell_behind }
    {
        let (changes, moment) = seen;
        if (journal.entries.len() as u64) < changes || journal.high < moment {
            self.fell_behind = true;
        }
        let change = self.next_change();
        if journal.add(self.made + 1, change).is_ok() {
            self.made += 1;
        }
    }

    /// Makes a change through the pass, where there is memory.
    pub fn make<N: First, R: Wait>(
        &mut self,
        turn: &Turn<Journal, N>,
        rt: &R,
        pass: Pass<N>,
    ) -> Pass<N>
        requires own { pass.turn ≡ turn.now }
        requires room { self.old.made < 2 ^ 63 }
        ensures made { Made pass result self.old.made self.new.made }
        ensures few { (self.old.made ≤ self.new.made) × (self.new.made ≤ self.old.made + 1) }
        ensures ahead { self.new.fell_behind ≡ self.old.fell_behind }
    {
        let seen = pass.front();
        let mut held = turn.hold(rt, pass);
        self.add_to(held.value(), seen);
        turn.release(held)
    }
}
