//! Fernet tokens of version 0x80, as the Fernet specification gives them: their keys and texts in
//! base64url (RFC 4648, section 5), sealing by AES-128 in CBC under an HMAC-SHA256 (RFC 2104), and
//! opening.
#![tactic(auto)]

mod authentic;
mod base64_url;
mod envelope;
mod key_text;
pub mod laws;
mod opened;
mod opener;
mod opening;
mod opening_key;
mod sealing;

pub use envelope::{Envelope, EnvelopeFault};
pub use key_text::{KeyText, read_key};
pub use opened::{Opened, open};
pub use opening::{OpenAnswer, answer};
pub use opening_key::OpeningKey;
pub use sealing::seal;
