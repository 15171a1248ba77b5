//! The service catalog (Identity API v3): regions, services and endpoints, and what a project sees of them.
#![tactic(auto)]

mod catalog;
mod changes;
mod checks;
mod laws;
mod lists;
mod offers;
mod project_catalog;
mod rows;
mod shared;
mod tests_of_rows;
mod urls;

pub use catalog::Catalog;
pub use laws::some_urls_filled;
pub use offers::{EndpointOut, EndpointOutList, ServiceOut, ServiceOutList};
pub use project_catalog::ProjectCatalog;
