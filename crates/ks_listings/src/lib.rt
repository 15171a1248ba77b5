//! Rows that are told: those of a listing, by its filters, and the one of a catalog or a secret that is named.
#![tactic(auto)]

mod by_name;
mod catalog_listings;
pub mod catalog_shown;
mod filtered;
pub mod listings;
pub mod secrets;
mod shelf;
