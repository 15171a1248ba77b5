//! Second factors: the codes that a user's secrets give from moment to moment (RFC 4226, RFC 6238), the secrets and the
//! rules of which methods a user has to log in by, and secrets as texts (RFC 4648, base32).
#![tactic(auto)]

mod base32;
mod factors;
mod hmac;
mod hotp;
mod laws;
mod owners;
mod rules;
mod secrets;

pub use base32::{read_base32, write_base32};
pub use factors::Factors;
pub use hmac::hmac_sha1;
pub use hotp::code;
pub use laws::{one_text_is_of_one_secret, rules_are_sets_of_methods};
