//! Message authentication codes and keys from passwords, over SHA-256: HMAC (RFC 2104), a
//! comparison of two codes that reads both to their end wherever they differ, and PBKDF2 (RFC 8018)
//! for keys of 32 bytes.
#![tactic(auto)]

ghost use Rattle.std.specs.Prelude.{◌≡◌, ℕ, ◌<◌, ◌≤◌, ◌↔◌, IsTrue, bit_xor, slice_index};
ghost use Rattle.ks_hmac.specs.Hmac.{hmac_of};
ghost use Rattle.ks_hmac.specs.Pbkdf2.{pbkdf2_of};

use keyed::KeyedHash;
use sha2::Digest;

mod keyed;
mod signing_key;

pub use signing_key::SigningKey;

// PBKDF2 numbers the blocks of a key from 1, and a key of 32 bytes has one.
const BLOCK_NUMBER: u32 = 1;

/// The code of `message` under `key`: HMAC with SHA-256 (RFC 2104). A key may have any length;
/// one above 64 bytes counts as its digest, so such a key and its digest give the same codes.
pub fn hmac(key: &[u8], message: &[u8]) -> [u8; 32]
    ensures { result ≡ hmac_of key.now message.now }
{
    KeyedHash::new(key).sign(message)
}

/// Whether two codes are equal. All 32 bytes of both are read whatever they are, so that the time
/// taken does not tell where a forged code begins to differ.
pub fn same(left: &[u8; 32], right: &[u8; 32]) -> bool
    ensures { IsTrue result ↔ (left.now ≡ right.now) }
{
    let mut differences = 0;
    for (i, byte) in left.iter().enumerate() {
        differences |= byte ^ right[i];
    }
    differences == 0
}

// Adds a block to the sum, bit by bit with no carry.
fn add_block(sum: &mut [u8; 32], block: &[u8; 32])
    ensures { (k : ℕ) → k < 32
        → slice_index sum.new k ≡ bit_xor (slice_index sum.old k) (slice_index block.now k) }
{
    for (i, byte) in block.iter().enumerate() {
        sum[i] ^= byte;
    }
}

/// The key of 32 bytes for `password`: PBKDF2 with HMAC-SHA-256 (RFC 8018, section 5.2). The time
/// taken grows with `rounds`, which is the cost of each guess at the password, so the number is
/// held to a limit that a caller can wait for.
pub fn pbkdf2(password: &[u8], salt: &[u8], rounds: u32) -> [u8; 32]
    requires at_least_one { 1 ≤ rounds }
    requires limited { rounds ≤ 100_000 }
    ensures { result ≡ pbkdf2_of password.now salt.now rounds }
{
    let keyed = KeyedHash::new(password);
    let mut first = keyed.start();
    first.update(salt);
    first.update(&BLOCK_NUMBER.to_be_bytes());
    let mut block = keyed.finish(first);
    let mut sum = block;
    'rounds: for _ in 1..rounds {
        block = keyed.sign(&block);
        add_block(&mut sum, &block);
    }
    sum
}
