//! The policy of oslo.policy: named rules, read from an object over the default rules, and which actions they
//! allow.
#![tactic(auto)]

mod cycles;
mod defaults;
mod fault;
mod holding;
mod laws;
mod load;
mod named;
mod needs;
mod opening;
mod order;
mod place;
mod rules;
mod table;
mod texts;

pub use fault::PolicyFault;
pub use opening::Opening;
pub use rules::Rules;
