//! What a call may be answered: a plan, or why there is none yet; and the checks, draws and texts that many commands share.
#![tactic(auto)]

mod caller;
pub mod checks;
pub mod draws;
pub mod filters;
mod halt;
pub mod in_order;
pub mod named;
pub mod names;
pub mod passwords;
pub mod paths;
mod plan;
pub mod puts;
pub mod standing;
pub mod tested;
pub mod tokens;
pub mod told;

pub use caller::Caller;
pub use halt::{Halt, Needs};
pub use plan::Plan;
