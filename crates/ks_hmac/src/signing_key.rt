ghost use Rattle.std.specs.Prelude.{◌≡◌};
ghost use Rattle.ks_hmac.specs.Hmac.{hmac_of};

use crate::keyed::KeyedHash;
use std::marker::Model;

/// A key of 16 bytes that is to sign many messages. What SHA-256 makes of the two blocks that
/// begin each code, the key under the inner pad and under the outer one, is kept (RFC 2104,
/// section 4), so that a code takes two compressions less than by [`crate::hmac`]. Contracts see
/// it as the key's bytes.
#[derive(Drop)]
pub struct SigningKey {
    key: [u8; 16],
    hash: KeyedHash,
}

impl Model for SigningKey {
    ghost use Rattle.std.specs.Prelude.{ℕ, List};
    ghost use Rattle.ks_hmac.specs.Keyed.{IsKeyed};

    ghost Value = { List ℕ };

    ghost view = { λ signing. signing.key };

    ghost invariant = { λ signing. IsKeyed signing.hash signing.key };
}

impl SigningKey {
    /// Takes the key in.
    pub fn new(key: &[u8; 16]) -> SigningKey
        ensures { result ≡ key.now }
    {
        SigningKey {
            key: *key,
            hash: KeyedHash::new(key),
        }
    }

    /// The code of the message: HMAC with SHA-256.
    pub fn sign(&self, message: &[u8]) -> [u8; 32]
        ensures { result ≡ hmac_of self.now message.now }
    {
        self.hash.sign(message)
    }
}
