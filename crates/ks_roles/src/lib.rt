//! Roles and their implications (Identity API v3, roles and implied roles).
#![tactic(auto)]

mod changes;
mod checks;
mod closure;
mod lists;
mod named;
mod roles;

pub use roles::Roles;
