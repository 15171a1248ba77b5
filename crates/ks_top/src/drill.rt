//! A drill, and its line.
ghost use Rattle.std.specs.Prelude.{◌≡◌, ◌≤◌, ℕ, List, Some, Err, IfErr};
ghost use Rattle.ks_base.specs.declared.limits.TheConstants.{DRILL_MEMBERS, DRILL_START};
ghost use Rattle.ks_outside.specs.Streams.{OnlyWrites};
ghost use Rattle.ks_top.specs.Drills.{EndsDrill, IsDrillFault};

use ks_commands::Fault;
use ks_outside::{Sink, write_all};
use std::sync::Wait;

/// Makes the calls of a drill to an identity of its own, and writes the line that counts their replies.
pub fn drill<R: AllocGlobal + Wait, K: Sink>(
    rt: &R,
    start: u64,
    count: u32,
    output: &mut K,
) -> Result<(), Fault>
    requires start { start ≤ DRILL_START }
    requires least { 1 ≤ count }
    requires most { count ≤ DRILL_MEMBERS }
    ensures told { (before : List ℕ) → (K.stream output.old).written ≡ Some before → EndsDrill start count before (K.stream output.new).written result }
    ensures causes { IfErr result IsDrillFault }
    ensures writes { OnlyWrites (result ≡ Err Fault.Write) (K.stream output.old) (K.stream output.new) }
{
    let Ok(line) = ks_drill::drill(rt.alloc(), rt, start, count) else {
        return Err(Fault::Memory);
    };
    match write_all(output, line.as_slice()) {
        Ok(()) => Ok(()),
        Err(_) => Err(Fault::Write),
    }
}
