//! Trusts and application credentials: made, listed, told and ended.
#![tactic(auto)]

pub mod app_cred_creations;
pub mod app_creds;
pub mod trusts;
