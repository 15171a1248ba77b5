ghost use Rattle.std.specs.Prelude.{◌≡◌, ◌≤◌};
ghost use Rattle.ks_machine.specs.Fit.{Fit};
ghost use Rattle.ks_machine.specs.Fronts.{Front};
ghost use Rattle.ks_machine.specs.Told.{IsTellable};
ghost use Rattle.ks_state.specs.Decides.{Replied};

use crate::rounds::DECISIONS;
use crate::work::work;
use ks_auth::Facts;
use ks_machine::{Call, Cause, Reply};
use ks_outside::Open;
use ks_state::{Decides, Decision};
use std::alloc::Global;

/// Decides a call of a value that nobody else calls, and does the work that the decision asks for. `Memory` is the
/// reply where there was no memory to do the work or to decide.
pub fn answer_alone<I: Decides>(alloc: Global, state: &mut I, call: &Call) -> Reply
    requires fit { Fit call.now }
    requires stands { (f : Front) × I.stands state.old f }
    ensures replied { (f : Front) → I.stands state.old f → Replied I.stands I.kept f call.now result state.new }
    ensures kept { I.kept state.old ≤ I.kept state.new }
    ensures tellable { IsTellable result }
{
    let mut facts = Facts::new(alloc);
    for _ in 0..DECISIONS {
        match state.decide(call, &facts) {
            Decision::Done(reply) => return reply,
            Decision::Needs(needs) => {
                let Ok(()) = work(alloc, &needs, call, &mut facts, &Open) else {
                    return Reply::Refused(Cause::Memory);
                };
            }
        }
    }
    // Each work found a fact that was lacking, and so the last decision lacked none.
    unreachable!()
}
