ghost use Rattle.std.specs.Prelude.{◌≡◌, ◌≢◌, ◌⊎◌, ◌≤◌, ℕ, if◌then◌else◌, Some, None, true, false, IfOk, OnOk, OnErr};
ghost use Rattle.std.specs.Ordering.{nat_cmp, is_eq};
ghost use Rattle.std.specs.BTreeMap.{insert_entry};
ghost use Rattle.ks_outside.specs.Counts.{Counts, next_count};
ghost use Rattle.ks_keeper.specs.Keeper.{IsTidy, with_entry, with_header};
ghost use Rattle.ks_keeper.specs.Memory.{told_kept, first_kept, entry_in, planned};

use crate::{KeepFault, Keeper};
use ks_base::{Bytes, Memory};
use std::alloc::Global;
use std::collections::BTreeMap;
use std::marker::Model;
use std::snapshot::Snapshot;

/// A keeper in memory. Chosen calls fail, and of each it is chosen whether its change is made all the same.
/// The counts of calls and of faults stand still at 2^64 - 1. It is whole where what it was made with is tidy.
pub struct MemoryKeeper {
    alloc: Global,
    header: Option<Bytes>,
    entries: BTreeMap<u64, Bytes>,
    failing: Vec<(u64, bool)>,
    calls: u64,
    faults: u64,
    first_header: Snapshot<Option<Bytes>>,
    first_entries: Snapshot<BTreeMap<u64, Bytes>>,
}

impl Drop for MemoryKeeper {
    fn drop(self) {
        let MemoryKeeper {
            alloc: _,
            header: _,
            entries: _,
            failing: _,
            calls: _,
            faults: _,
            first_header: _,
            first_entries: _,
        } = self;
    }
}

impl Model for MemoryKeeper {
    ghost use Rattle.ks_keeper.specs.Memory.{MemoryKeeperState};

    ghost Value = { MemoryKeeperState };

    ghost view = { λ k. record {
      header = k.header;
      entries = k.entries.entries;
      failing = k.failing.items;
      calls = k.calls;
      faults = k.faults;
      first_header = k.first_header.value;
      first_entries = k.first_entries.value.entries;
    } };
}

impl MemoryKeeper {
    /// A keeper that holds these. The calls with the numbers in `failing`, counted from 1, will fail, and the
    /// change of such a call is made where the truth value beside its number says so.
    pub fn new(
        alloc: Global,
        header: Option<Bytes>,
        entries: BTreeMap<u64, Bytes>,
        failing: &[(u64, bool)],
    ) -> Result<MemoryKeeper, Memory>
        ensures is { IfOk result (λ made. made ≡ record { header = header; entries = entries.entries; failing = failing.now; calls = 0; faults = 0; first_header = header; first_entries = entries.entries }) }
        ensures tidy { IfOk result (λ made. IsTidy (first_kept made) → IsTidy (told_kept made)) }
    {
        let failing = Vec::from_slice(alloc, failing)?;
        let first_header = Snapshot::of(&header);
        let first_entries = Snapshot::of(&entries);
        Ok(MemoryKeeper {
            alloc,
            header,
            entries,
            failing,
            calls: 0,
            faults: 0,
            first_header,
            first_entries,
        })
    }

    /// The header and the entries.
    pub fn into_contents(self) -> (Option<Bytes>, BTreeMap<u64, Bytes>)
        ensures header { result.0 ≡ self.header }
        ensures entries { result.1.entries ≡ self.entries }
    {
        let MemoryKeeper {
            alloc: _,
            header,
            entries,
            failing: _,
            calls: _,
            faults: _,
            first_header: _,
            first_entries: _,
        } = self;
        (header, entries)
    }

    /// Counts one more call, and says of one that is to fail whether its change is made.
    fn begin(&mut self) -> Option<bool>
        ensures fate { result ≡ planned self.old.failing (next_count self.old.calls) }
        ensures count { self.new ≡ record self.old { calls = next_count self.old.calls } }
    {
        self.calls = self.calls.saturating_add(1);
        planned(self.failing.as_slice(), self.calls)
    }

    /// Counts a fault.
    fn fault(&mut self) -> KeepFault
        ensures failed { result ≡ KeepFault.Failed }
        ensures kept { self.old.faults ≤ self.new.faults }
        ensures count { self.new ≡ record self.old { faults = next_count self.old.faults } }
    {
        self.faults = self.faults.saturating_add(1);
        KeepFault::Failed
    }

    /// Makes the change of a call on the entries.
    fn put(&mut self, number: u64, entry: &[u8]) -> Result<(), Memory>
        ensures ok { OnOk result (self.new ≡ record self.old { entries = insert_entry nat_cmp self.old.entries number entry.now }) }
        ensures entry { OnOk result ((n : ℕ) → entry_in self.new.entries n ≡ (if is_eq (nat_cmp number n) then Some entry.now else entry_in self.old.entries n)) }
        ensures err { OnErr result (self.new ≡ self.old) }
    {
        let copy = Bytes::of(self.alloc, entry)?;
        let _before = self.entries.insert(number, copy)?;
        Ok(())
    }

    /// Makes the change of a call on the header.
    fn put_header(&mut self, header: &[u8]) -> Result<(), Memory>
        ensures ok { OnOk result (self.new ≡ record self.old { header = Some header.now }) }
        ensures err { OnErr result (self.new ≡ self.old) }
    {
        self.header = Some(Bytes::of(self.alloc, header)?);
        Ok(())
    }
}

/// What becomes of the change of the call with this number, if it is among those that are to fail.
fn planned(failing: &[(u64, bool)], call: u64) -> Option<bool>
    ensures { result ≡ planned failing.now call }
{
    failing
        .iter()
        .find(|plan| plan.0 == call)
        .map(|plan| plan.1)
}

fn copy_of(bytes: &Option<Bytes>) -> Result<Option<Bytes>, Memory>
    ensures { IfOk result (λ copy. copy ≡ bytes.now) }
{
    match bytes {
        Some(bytes) => Ok(Some(bytes.copy()?)),
        None => Ok(None),
    }
}

fn copy_at(entries: &BTreeMap<u64, Bytes>, number: u64) -> Result<Option<Bytes>, Memory>
    ensures { IfOk result (λ copy. copy ≡ entry_in entries.now.entries number) }
{
    match entries.get(&number) {
        Some(bytes) => Ok(Some(bytes.copy()?)),
        None => Ok(None),
    }
}

impl Keeper for MemoryKeeper {
    ghost kept = { told_kept };

    ghost whole = { λ k. IsTidy (first_kept k) };

    ghost faults = { λ k. k.faults };

    fn header(&mut self) -> Result<Option<Bytes>, KeepFault>
        ensures told { IsTidy (first_kept self.new) → IfOk result (λ found. found ≡ self.old.header) }
        ensures same { IsTidy (first_kept self.new) → told_kept self.new ≡ told_kept self.old }
        ensures since { IsTidy (first_kept self.new) → IsTidy (first_kept self.old) }
        ensures faults { Counts (result ≡ Err KeepFault.Failed) self.old.faults self.new.faults }

        ensures goes { OnOk result (planned self.old.failing (next_count self.old.calls) ≡ None) }
        ensures fails { result ≡ Err KeepFault.Failed → planned self.old.failing (next_count self.old.calls) ≢ None }
        ensures after { self.new ≡ record self.old { calls = next_count self.old.calls; faults = self.new.faults } }
    {
        if self.begin().is_some() {
            return Err(self.fault());
        }
        Ok(copy_of(&self.header)?)
    }

    fn set_header(&mut self, header: &[u8]) -> Result<(), KeepFault>
        ensures since { IsTidy (first_kept self.new) → IsTidy (first_kept self.old) }
        ensures ok { IsTidy (first_kept self.new) → OnOk result (told_kept self.new ≡ with_header header.now (told_kept self.old)) }
        ensures err { IsTidy (first_kept self.new) → OnErr result ((told_kept self.new ≡ told_kept self.old) ⊎ (told_kept self.new ≡ with_header header.now (told_kept self.old))) }
        ensures faults { Counts (result ≡ Err KeepFault.Failed) self.old.faults self.new.faults }

        ensures goes { OnOk result (planned self.old.failing (next_count self.old.calls) ≡ None) }
        ensures undone { planned self.old.failing (next_count self.old.calls) ≡ Some false → (result ≡ Err KeepFault.Failed) × (told_kept self.new ≡ told_kept self.old) }
        ensures done { result ≡ Err KeepFault.Failed → planned self.old.failing (next_count self.old.calls) ≡ Some true → told_kept self.new ≡ with_header header.now (told_kept self.old) }
        ensures fails { result ≡ Err KeepFault.Failed → planned self.old.failing (next_count self.old.calls) ≢ None }
        ensures memory { result ≡ Err KeepFault.Memory → told_kept self.new ≡ told_kept self.old }
        ensures after { self.new ≡ record self.old { header = self.new.header; calls = next_count self.old.calls; faults = self.new.faults } }
    {
        match self.begin() {
            None => Ok(self.put_header(header)?),
            Some(true) => {
                self.put_header(header)?;
                Err(self.fault())
            }
            Some(false) => Err(self.fault()),
        }
    }

    fn read(&mut self, number: u64) -> Result<Option<Bytes>, KeepFault>
        ensures since { IsTidy (first_kept self.new) → IsTidy (first_kept self.old) }
        ensures told { IsTidy (first_kept self.new) → IfOk result (λ found. found ≡ entry_in self.old.entries number) }
        ensures same { IsTidy (first_kept self.new) → told_kept self.new ≡ told_kept self.old }
        ensures faults { Counts (result ≡ Err KeepFault.Failed) self.old.faults self.new.faults }

        ensures goes { OnOk result (planned self.old.failing (next_count self.old.calls) ≡ None) }
        ensures fails { result ≡ Err KeepFault.Failed → planned self.old.failing (next_count self.old.calls) ≢ None }
        ensures after { self.new ≡ record self.old { calls = next_count self.old.calls; faults = self.new.faults } }
    {
        if self.begin().is_some() {
            return Err(self.fault());
        }
        Ok(copy_at(&self.entries, number)?)
    }

    fn keep(&mut self, number: u64, entry: &[u8]) -> Result<(), KeepFault>
        ensures since { IsTidy (first_kept self.new) → IsTidy (first_kept self.old) }
        ensures ok { IsTidy (first_kept self.new) → OnOk result (told_kept self.new ≡ with_entry number entry.now (told_kept self.old)) }
        ensures err { IsTidy (first_kept self.new) → OnErr result ((told_kept self.new ≡ told_kept self.old) ⊎ (told_kept self.new ≡ with_entry number entry.now (told_kept self.old))) }
        ensures faults { Counts (result ≡ Err KeepFault.Failed) self.old.faults self.new.faults }

        ensures goes { OnOk result (planned self.old.failing (next_count self.old.calls) ≡ None) }
        ensures undone { planned self.old.failing (next_count self.old.calls) ≡ Some false → (result ≡ Err KeepFault.Failed) × (told_kept self.new ≡ told_kept self.old) }
        ensures done { result ≡ Err KeepFault.Failed → planned self.old.failing (next_count self.old.calls) ≡ Some true → told_kept self.new ≡ with_entry number entry.now (told_kept self.old) }
        ensures fails { result ≡ Err KeepFault.Failed → planned self.old.failing (next_count self.old.calls) ≢ None }
        ensures memory { result ≡ Err KeepFault.Memory → told_kept self.new ≡ told_kept self.old }
        ensures after { self.new ≡ record self.old { entries = self.new.entries; calls = next_count self.old.calls; faults = self.new.faults } }
    {
        match self.begin() {
            None => Ok(self.put(number, entry)?),
            Some(true) => {
                self.put(number, entry)?;
                Err(self.fault())
            }
            Some(false) => Err(self.fault()),
        }
    }
}
