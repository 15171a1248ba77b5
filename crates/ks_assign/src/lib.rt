//! Grants: which user or group has which role where (Identity API v3, role assignments; OS-INHERIT).
#![tactic(auto)]

mod by_target;
mod grants;
mod named;

pub use by_target::ByTarget;
pub use grants::Grants;
