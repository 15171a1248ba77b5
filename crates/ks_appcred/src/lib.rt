//! Application credentials (Identity API v3, application credentials): how they are found, added and dropped.
#![tactic(auto)]

mod app_creds;
mod changes;
mod checks;
mod orders;
mod two_orders;

pub use app_creds::AppCreds;
