ghost use Rattle.std.specs.Prelude.{◌≡◌, ◌≤◌, IfOk};
ghost use Rattle.ks_base.specs.declared.limits.TheConstants.{DRILL_MEMBERS, DRILL_START};
ghost use Rattle.ks_machine.specs.Fronts.{first_front};
ghost use Rattle.ks_state.specs.Standing.{StandsWithAllKept};
ghost use Rattle.ks_policy.specs.Openings.{plain};
ghost use Rattle.ks_drill.specs.Drill.{AreDefault, IsDrill};
ghost use Rattle.ks_drill.specs.Openings.{drill_opening};

use crate::opening::opening;
use crate::session::Session;
use crate::steps::play;
use ks_base::{Memory, Text};
use ks_policy::Opening;
use ks_state::Identity;
use ks_turn::First;
use std::alloc::Global;
use std::marker::Brand;
use std::snapshot::Snapshot;
use std::sync::Wait;

/// Opens an identity, makes so many members of it who log in, ends the tokens of those with some roles, and validates all tokens.
/// The text is a line that counts the replies.
pub fn drill<R: Wait>(alloc: Global, rt: &R, start: u64, count: u32) -> Result<Text, Memory>
    requires start { start ≤ DRILL_START }
    requires least { 1 ≤ count }
    requires most { count ≤ DRILL_MEMBERS }
    ensures { IfOk result (IsDrill start count) }
{
    // The rows of the opening fit each other, so that only memory can be wanting.
    let opening = opening(alloc)?;
    let named = Snapshot::of(&opening);
    let Ok(identity) = Identity::open(alloc, opening) else {
        return Err(Memory);
    };
    run::<Brand, R>(alloc, rt, named, identity, start, count)
}

/// Makes the calls of a drill to an identity that was opened with this.
fn run<N: First, R: Wait>(
    alloc: Global,
    rt: &R,
    opening: Snapshot<Opening>,
    identity: Identity,
    start: u64,
    count: u32,
) -> Result<Text, Memory>
    requires opening { plain opening.value ≡ drill_opening opening.value.rules }
    requires rules { AreDefault opening.value.rules }
    requires front { N.front ≡ first_front (plain opening.value) }
    requires stands { StandsWithAllKept identity N.front }
    requires start { start ≤ DRILL_START }
    requires most { count ≤ DRILL_MEMBERS }
    ensures { IfOk result (IsDrill start count) }
{
    let session = Session::<N>::new(alloc, identity)?;
    play(alloc, rt, session, start, count)
}
