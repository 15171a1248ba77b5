//! An identity whose changes a keeper keeps. A change counts as kept once the keeper has answered that it has it, and a
//! restart makes the kept changes once more, in their order.
#![tactic(auto)]

mod booked;
mod deciding;
mod fault;
mod keeping;
mod laws;
mod past;
mod restoring;
mod since;

pub use booked::Booked;
pub use fault::{NotRead, NotRestored};
pub use keeping::KeeperFailed;
pub use laws::stops_leave_books;
pub use past::Past;
pub use restoring::restored;
pub use since::Since;
