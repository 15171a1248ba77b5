//! Requests of HTTP on links, each answered by the identity machine before the next one is read.
#![tactic(auto)]

mod account;
mod causes;
mod closed;
mod connection;
mod draws;
mod folder;
mod laws;
mod number;
mod replied;
mod requests;
mod respond;
mod seats;
mod server;
mod service;
mod worker;
mod workers;

pub use closed::Closed;
pub use connection::serve_connection;
pub use laws::{exchanges_are_in_order, sessions_stay, workers_are_placed};
pub use service::Service;
pub use workers::{Served, serve};
