//! Runs two drills and prints their lines, which were worked out without the program.
#![tactic(auto)]

ghost use Rattle.std.specs.Prelude.{◌≤◌};
ghost use Rattle.ks_base.specs.declared.limits.TheConstants.{DRILL_MEMBERS, DRILL_START};

use anyhow::{Result, bail};
use ks_drill::drill;
use std::sync::Wait;

/// Prints the line of a drill.
fn show<R: Print + Wait + AllocGlobal>(rt: &R, start: u64, count: u32) -> Result<()>
    requires start { start ≤ DRILL_START }
    requires least { 1 ≤ count }
    requires most { count ≤ DRILL_MEMBERS }
{
    let Ok(line) = drill(rt.alloc(), rt, start, count) else {
        bail!("no memory");
    };
    print!(rt; "{}", line.as_str())?;
    Ok(())
}

fn main(rt: HostRuntime) -> Result<()> {
    show(&rt, 0, 11)?;
    show(&rt, 5, 2_000)
}
