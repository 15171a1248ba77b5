//! The responses of HTTP that tell the machine's replies, with bodies of JSON.
#![tactic(auto)]

mod bodies;
mod catalog;
mod credentials;
mod errors;
mod events;
mod fields;
mod grants;
mod laws;
mod listings;
mod named;
mod names;
mod responses;
mod rows;
mod status;
mod tell;
mod tokens;
mod version;
mod writing;

pub use laws::{
    app_cred_document, catalog_document, head_has_no_body, memory_ends_the_connection,
    secret_document, token_document, unauthorized_document, version_document, versions_document,
};
pub use names::{keys_name, kind_name, tree_name, trust_name};
pub use responses::{render, render_bad};
