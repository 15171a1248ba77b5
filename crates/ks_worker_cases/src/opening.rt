//! What the cases open with.
ghost use Rattle.std.specs.Prelude.{IfOk};
ghost use Rattle.ks_machine.specs.Lawful.{IsOpeningInRange};
ghost use Rattle.ks_policy.specs.Openings.{plain};

use anyhow::{Context, Result, bail};
use ks_base::Id;
use ks_outside::MemoryDesk;
use ks_policy::Opening;
use ks_setup::{openings_are_in_range, read_opening};
use std::alloc::Global;

/// The salts of two passwords.
const SALTS: [u8; 32] = [7; 32];

/// Reads an opening file that has its keys in itself, and two passwords.
pub fn read(alloc: Global, file: &[u8]) -> Result<Opening>
    ensures { IfOk result (λ opening. IsOpeningInRange (plain opening)) }
{
    let links = Vec::new(alloc);
    let mut desk = MemoryDesk::new(alloc, links, &[], &SALTS, &[], &[])?;
    openings_are_in_range();
    match read_opening(alloc, file, &[], &mut desk) {
        Ok(opening) => Ok(opening),
        Err(_) => bail!("the opening file is refused"),
    }
}

/// The salt of the user's password.
pub fn salt_of(opening: &Opening, user: Id) -> Result<[u8; 16]> {
    let mut salt = None;
    for row in opening.users.as_slice() {
        if row.id == user {
            salt = row.password.map(|password| password.salt);
        }
    }
    salt.context("no such password")
}
