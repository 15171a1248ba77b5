//! Calls on application credentials, one behind the other, beside the answers that are wanted: what each call finds and leaves, and
//! the table full. Prints how many of the calls of `data/calls.txt` were answered as wanted, and each that was not.
#![tactic(auto)]

mod calls;

use anyhow::Result;

fn main(rt: HostRuntime) -> Result<()> {
    calls::try_table(&rt)
}
