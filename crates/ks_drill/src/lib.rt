//! A drill of an identity: a long script of calls through one pass, whose replies are counted. What the line of a drill says is
//! proved to be what the plain machine says of the same script.
#![tactic(auto)]

mod calls;
mod commands;
mod laws;
mod opening;
mod policy;
mod replies;
mod running;
mod session;
mod steps;
mod words;

pub use laws::drill_says_one_line;
pub use running::drill;
