//! Commands about memberships, implications and grants, and the listing of assignments.
#![tactic(auto)]

mod asked;
pub mod assignments;
mod effective;
pub mod grants;
pub mod members;
pub mod user_projects;
