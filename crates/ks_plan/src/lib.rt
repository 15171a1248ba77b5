//! What a call is answered and which change it makes, by the tables of the moment and the facts that are known. A plan
//! changes nothing.
#![tactic(auto)]

mod allowed;
mod calls;
mod events;
mod given;
mod keys;

pub use calls::plan_call;
