//! What is written down of each change.
ghost use Rattle.std.specs.Prelude.{◌≡◌, ◌^◌, ◌<◌, ◌≤◌, true, false, [], ◌++◌, length, Some, None, OnOk};
ghost use Rattle.std.specs.Option.{option_copied};
ghost use Rattle.ks_base.specs.Revocation.{live};
ghost use Rattle.ks_state.specs.declared.unmade.Unmade.{Unmade};
ghost use Rattle.ks_machine.specs.Changes.{events_at};
ghost use Rattle.ks_state.specs.Logs.{is_room, written};

use crate::unmade::Unmade;
use ks_base::{EventRow, Revoke};
use ks_machine::{Change, Entry};
use ks_revoke::{RevokeFault, Revoked};
use std::alloc::Global;
use std::marker::Model;

/// How many changes may be made.
const CHANGES: u64 = 1 << 58;

/// The live revocations, the last change, and how many changes were made.
pub(crate) struct Log {
    revoked: Revoked,
    high: u64,
    newest: Option<Entry>,
    made: u64,
}

impl Drop for Log {
    fn drop(self) {
        let Log {
            revoked: _,
            high: _,
            newest: _,
            made: _,
        } = self;
    }
}

impl Model for Log {
    ghost use Rattle.std.specs.Prelude.{◌≡◌};
    ghost use Rattle.ks_state.specs.Logs.{Logged};

    ghost Value = { Logged };

    ghost view = { λ log. record { revoked = log.revoked; newest = log.newest; made = log.made } };

    ghost invariant = { λ log. log.high ≡ log.revoked.high };
}

/// Adds revocations at the greatest moment so far, for which there is room.
fn revoke_all(revoked: &mut Revoked, moment: u64, things: &[Revoke])
    requires room { length things.now ≤ revoked.old.room }
    requires moment { revoked.old.high ≡ moment }
    ensures { revoked.new ≡ record revoked.old { events = revoked.old.events ++ events_at moment things.now; marks = revoked.new.marks; room = revoked.new.room } }
{
    for thing in things {
        revoked.add(EventRow {
            what: *thing,
            moment,
        });
    }
}

impl Log {
    /// Nothing yet, for tokens that live as many seconds. It takes no memory.
    pub(crate) fn new(alloc: Global, life: u64) -> Log
        ensures { result ≡ record { revoked = record { life = life; high = 0; events = []; marks = []; room = result.revoked.room }; newest = None; made = 0 } }
    {
        Log {
            revoked: Revoked::new(alloc, life),
            high: 0,
            newest: None,
            made: 0,
        }
    }

    /// The live revocations.
    pub(crate) fn revoked(&self) -> &Revoked
        ensures { result.now ≡ self.now.revoked }
    {
        &self.revoked
    }

    /// The highest moment so far.
    pub(crate) fn high(&self) -> u64
        ensures { result ≡ self.now.revoked.high }
    {
        self.high
    }

    /// How many changes were made.
    pub(crate) fn made(&self) -> u64
        ensures { result ≡ self.now.made }
    {
        self.made
    }

    /// The last change, if there was one.
    pub(crate) fn newest(&self) -> Option<&Entry>
        ensures { option_copied result ≡ self.now.newest }
    {
        self.newest.as_ref()
    }

    /// Raises the highest moment to this one, and lets the revocations that are past then go. It takes no memory.
    pub(crate) fn raise(&mut self, moment: u64)
        requires { self.old.revoked.high ≤ moment }
        ensures { self.new ≡ record self.old { revoked = record self.old.revoked { high = moment; events = live self.old.revoked.life moment self.old.revoked.events; marks = self.new.revoked.marks; room = self.new.revoked.room } } }
    {
        self.revoked.advance(moment);
        self.high = moment;
    }

    /// Makes room for one change and as many more revocations. Refused is what would lead to more live ones than these, or
    /// than may ever be.
    pub(crate) fn ready(&mut self, most: usize, more: usize) -> Result<(), Unmade>
        ensures same { self.new ≡ record self.old { revoked = record self.old.revoked { room = self.new.revoked.room } } }
        ensures room { OnOk result (more ≤ self.new.revoked.room) }
        ensures count { OnOk result (self.old.made < 2 ^ 58) }
        ensures free { OnOk result (is_room most self.old.revoked.events more ≡ true) }
        ensures full { result ≡ Err Unmade.Full → is_room most self.old.revoked.events more ≡ false }
    {
        if more > 0 {
            self.room(most, more)?;
        }
        if self.made >= CHANGES {
            return Err(Unmade::Memory);
        }
        Ok(())
    }

    /// Makes room for as many revocations.
    fn room(&mut self, most: usize, more: usize) -> Result<(), Unmade>
        requires { 0 < more }
        ensures same { self.new ≡ record self.old { revoked = record self.old.revoked { room = self.new.revoked.room } } }
        ensures room { OnOk result (more ≤ self.new.revoked.room) }
        ensures free { OnOk result (is_room most self.old.revoked.events more ≡ true) }
        ensures full { result ≡ Err Unmade.Full → is_room most self.old.revoked.events more ≡ false }
    {
        if most.saturating_sub(self.revoked.count()) < more {
            return Err(Unmade::Full);
        }
        match self.revoked.room(more) {
            Ok(()) => Ok(()),
            Err(RevokeFault::Full(_)) => Err(Unmade::Full),
            Err(RevokeFault::Memory) => Err(Unmade::Memory),
        }
    }

    /// Writes one change down, with what it revoked, for which there is room.
    pub(crate) fn write(&mut self, things: &[Revoke], change: Change)
        requires room { length things.now ≤ self.old.revoked.room }
        requires count { self.old.made < 2 ^ 58 }
        ensures { self.new ≡ written things.now change self.new.revoked.marks self.new.revoked.room self.old }
    {
        revoke_all(&mut self.revoked, self.high, things);
        self.newest = Some(Entry {
            number: self.made,
            moment: self.high,
            change,
        });
        self.made += 1;
    }
}
