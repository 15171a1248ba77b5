//! Users, groups and the memberships of users in groups (Identity API v3): the rows, how they are found, and
//! which changes of them are refused.
#![tactic(auto)]

mod groups;
mod lists;
mod members;
mod people;
mod users;

pub use people::People;
