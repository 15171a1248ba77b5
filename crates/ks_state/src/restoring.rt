//! How a server goes on after a restart.
ghost use Rattle.std.specs.Prelude.{◌≡◌};
ghost use Rattle.ks_machine.specs.Fronts.{first_front};
ghost use Rattle.ks_machine.specs.Lawful.{IsOpeningInRange};
ghost use Rattle.ks_machine.specs.Openings.{PlainOpening};
ghost use Rattle.ks_policy.specs.Openings.{plain};
ghost use Rattle.ks_state.specs.Restoring.{Restores};
ghost use Rattle.ks_state.specs.Standing.{StandsWithAllKept};

use crate::Identity;
use crate::redo::RedoFault;
use ks_machine::{Entry, OpenFault};
use ks_policy::Opening;
use std::alloc::Global;

/// Why an opening and the changes that were kept don't give an identity.
#[derive(Drop)]
pub enum RestoreFault {
    /// The entry with this number can't follow those before it.
    BadEntry(u64),
    /// The opening is refused.
    State(OpenFault),
    /// There was no memory.
    Memory,
}

/// The identity that stands for an opening and all changes that were kept since, each made once more at its moment.
pub fn restore(
    alloc: Global,
    opening: Opening,
    entries: Vec<Entry>,
) -> Result<Identity, RestoreFault>
    requires range { IsOpeningInRange (plain opening) }
    ensures { Restores (plain opening) entries.items result }
{
    match Identity::open(alloc, opening) {
        Ok(identity) => with_changes(identity, entries),
        Err(OpenFault::Memory) => Err(RestoreFault::Memory),
        Err(fault) => Err(RestoreFault::State(fault)),
    }
}

/// The identity after the changes of all entries, each made once more.
fn with_changes(mut identity: Identity, entries: Vec<Entry>) -> Result<Identity, RestoreFault>
    requires { (opening : PlainOpening) × StandsWithAllKept identity (first_front opening) }
    ensures { (opening : PlainOpening) → StandsWithAllKept identity (first_front opening) → Restores opening entries.items result }
{
    for entry in entries {
        let number = identity.log.made();
        match identity.redo(entry) {
            Ok(()) => {}
            Err(RedoFault::Unfit) => return Err(RestoreFault::BadEntry(number)),
            Err(RedoFault::Memory) => return Err(RestoreFault::Memory),
        }
    }
    Ok(identity)
}
