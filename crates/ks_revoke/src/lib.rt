//! Which tokens are revoked (OS-REVOKE, narrowed): the live events in the order in which they were written, and the
//! greatest moment of each thing that one of them names.
#![tactic(auto)]

mod fault;
mod laws;
mod live;
mod live_marks;
mod marks;
mod revoked;

pub use fault::RevokeFault;
pub use laws::{events_are_kept_or_past, live_events_suffice, marks_are_determined};
pub use live_marks::LiveMarks;
pub use revoked::Revoked;
