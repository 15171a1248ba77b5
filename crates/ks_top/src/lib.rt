//! What the program does: its commands, over an input and an output.
#![tactic(auto)]

mod begun;
mod drill;
mod laws;
mod opened;
mod outcome;
mod program;
mod serve;
mod talk;

pub use laws::{
    changes_are_determined, commands_complete, connections_complete, desk_faults_are_counted,
    refused_ever_after, requests_complete, restart_forgets_nothing, told_is_kept,
};
pub use program::{Ended, run};
