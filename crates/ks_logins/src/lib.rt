//! Logins: what a body shows, for whom and where, and the token that it is given.
#![tactic(auto)]

mod bearers;
pub mod login;
pub mod scopes;
