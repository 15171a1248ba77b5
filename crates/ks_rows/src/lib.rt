//! Commands about rows that have a route of their own: made, changed, ended and looked at.
#![tactic(auto)]

pub mod catalog_creations;
pub mod catalog_updates;
pub mod creations;
pub mod factors;
pub mod single;
pub mod updates;
