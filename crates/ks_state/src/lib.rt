//! The identity of a server: its tables, its keys and rules, what was revoked, and its last change. It stands for all
//! that happened since it was opened.
#![tactic(auto)]

mod catalog_rows;
mod cred_rows;
mod decide;
mod decides;
mod decision;
mod domain_gone;
mod domain_rows;
mod drops;
mod ended;
mod factor_rows;
mod gone;
mod identity;
mod ids;
mod in_memory;
mod links;
mod log;
mod make;
mod opening;
mod puts;
mod redo;
mod restoring;
mod settle;
mod trusts_gone;
mod unmade;
mod uses;

pub use decides::{Decides, Kept};
pub use decision::Decision;
pub use identity::Identity;
pub use ks_checks::Needs;
pub use redo::RedoFault;
pub use restoring::{RestoreFault, restore};
