//! What a token's text says to the tables of the moment: the facts of ciphers that a decision may use, and the
//! validation of a token (Identity API v3; Fernet tokens). It opens nothing by itself: what keys make of texts it
//! finds among the facts, and names that one is lacking.
#![tactic(auto)]

mod credential;
mod facts;
mod holder;
mod opening;
mod roles;
mod scope;
mod secrets;
mod tables;
mod validity;
mod verdict;

pub use credential::cred_in_payload;
pub use facts::Facts;
pub use holder::scope_domain;
pub use roles::{closure, has_cred_roles, is_system, roles_at, roles_to_give};
pub use scope::{acts_as, is_domain_on, is_expired, is_project_on, is_user_on};
pub use secrets::secret_of_draw;
pub use tables::Tables;
pub use validity::validate;
pub use verdict::Verdict;
