//! Which roles a user has where (Identity API v3, role assignments and implied roles; OS-INHERIT).
#![tactic(auto)]

mod actors;
mod effective;
mod laws;
mod reach;
mod targets;

pub use effective::roles_of;
pub use laws::{
    implication_adds_its_role, inherited_grant_skips_its_project, project_lies_not_above_itself,
    taking_a_grant_away_adds_none,
};
pub use targets::targets_of;
