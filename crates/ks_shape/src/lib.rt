//! The bodies of requests of the Identity API v3: from the bytes of a JSON document to what it asks for, or to
//! the first fault that it has.
#![tactic(auto)]

mod app_cred;
mod body;
mod catalog;
mod factors;
mod fields;
mod form;
mod laws;
mod login;
mod method;
mod misfit;
mod names;
mod node;
mod rows;
mod scope;
mod secret;
mod trust;
mod types;

pub use body::{read_body, read_catalog_body, read_document};
pub use catalog::{ENDPOINT_URL, InterfaceWord, SERVICE_TEXT};
pub use fields::FieldType;
pub use form::{BodyIn, Form};
pub use laws::{
    bodies_are_in_range, catalog_bodies_are_in_range, moments_are_of_time_texts,
    secrets_are_of_base32_texts,
};
pub use misfit::{Misfit, Unread};
pub use node::Node;
pub use rows::{DESCRIPTION, NAME, PASSWORD};
pub use types::{Affirmation, AnyText, Count, Falsehood, IdText, TextOf, TimeText, Truth, Whole};
