//! AES with a key of 128 bits (FIPS 197) in cipher block chaining (NIST SP 800-38A) with the padding of
//! RFC 5652.
#![tactic(auto)]

mod aes;
mod cbc;
mod columns;
mod keys;
mod laws;
mod rounds;
mod tables;

pub use aes::Aes128;
pub use cbc::{cbc_open, cbc_seal};
pub use laws::uncbc_undoes_cbc;
