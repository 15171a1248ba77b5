//! The payload of an identity token: its bytes, written in version 2, and read in versions 1 and 2. The format is this
//! project's own.
//!
//! | Field | Bytes |
//! |---|---|
//! | version | 1 or 2 |
//! | kind | 0 unscoped, 1 domain, 2 project, 3 trust, and in version 2 4 system, 5 application credential |
//! | methods | 1 to 15, a bit for each |
//! | user | an id field |
//! | scope | kinds 0 and 4 nothing, 1 the domain, 2 the project, 3 the project, then the trust, 5 the project, then the credential: each an id field |
//! | expiry | 8 bytes, the highest first, at most 253,402,300,799 |
//! | audit ids | 1 and the token's 16 bytes; or 2, the token's 16 bytes and the chain's |
//!
//! An id field is 0 and 16 bytes where the id is the 32 lower hex digits of those bytes. Any other id is its
//! length and its bytes. So each payload has one spelling in version 2, and where its kind is 0 to 3 one in version 1.
#![tactic(auto)]

mod hex_id;
mod laws;
mod payload;
mod reading;
mod writing;

pub use hex_id::unpacked;
pub use laws::{id_fields, one_reading, one_spelling, prefix_free, readings, versions};
pub use payload::Payload;
