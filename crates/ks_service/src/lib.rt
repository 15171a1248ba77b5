//! Calls of one identity that many callers use: each is decided in one hold of its turn, and the work on ciphers that the
//! decision asks for is done outside.
#![tactic(auto)]

mod alone;
mod answer;
mod caller;
mod calling;
mod opens;
mod recent;
mod rounds;
mod secrets;
mod work;

pub use alone::answer_alone;
pub use answer::Answer;
pub use calling::{call, next_call};
pub use recent::Recent;
