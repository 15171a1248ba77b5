ghost use Rattle.std.specs.Prelude.{◌≡◌};

use ks_aes_cbc::Aes128;
use ks_base::Key;
use ks_hmac::SigningKey;
use std::marker::Model;

/// A key that is to open many tokens: what its two halves need before they see a token, the hashed
/// pads of the HMAC (RFC 2104, section 4) and the key schedule of AES (FIPS 197, section 5.2), is
/// made once. Contracts see it as the key.
#[derive(Drop)]
pub struct OpeningKey {
    key: Key,
    signing: SigningKey,
    encryption: Aes128,
}

impl Model for OpeningKey {
    ghost use Rattle.std.specs.Prelude.{◌≡◌};
    ghost use Rattle.ks_base.specs.declared.key.Key.{Key};

    ghost Value = { Key };

    ghost view = { λ opening. opening.key };

    ghost invariant = { λ opening. (opening.signing ≡ opening.key.signing) × (opening.encryption ≡ opening.key.encryption) };
}

impl OpeningKey {
    /// Takes the key in.
    pub fn of(key: &Key) -> OpeningKey
        ensures { result ≡ key.now }
    {
        OpeningKey {
            key: *key,
            signing: SigningKey::new(&key.signing),
            encryption: Aes128::new(&key.encryption),
        }
    }

    /// The key that was taken in.
    pub fn key(&self) -> &Key
        ensures { result.now ≡ self.now }
    {
        &self.key
    }

    pub(crate) fn signing(&self) -> &SigningKey
        ensures { result.now ≡ self.now.signing }
    {
        &self.signing
    }

    pub(crate) fn encryption(&self) -> &Aes128
        ensures { result.now ≡ self.now.encryption }
    {
        &self.encryption
    }
}
