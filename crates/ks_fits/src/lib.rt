//! Whether a change is one that the tables and the ring take (Identity API v3; OS-TRUST; Fernet keys). A call makes no
//! other change; one that was written down may be of another hand, and is asked about here before it is made once more.
#![tactic(auto)]

mod app_creds;
mod catalog;
mod changes;
mod factors;
mod grants;
mod keys;
mod people;
mod ranges;
mod roles;
mod tokens;
mod tree;
mod trusts;

pub use changes::fits;
