ghost use Rattle.std.specs.Prelude.{◌≡◌, IfOk};
ghost use Rattle.ks_aes_cbc.specs.Cbc.{uncbc};
ghost use Rattle.ks_fernet.specs.Opener.{key_of};
ghost use Rattle.ks_hmac.specs.Hmac.{hmac_of};

use crate::opening_key::OpeningKey;
use ks_aes_cbc::cbc_open;
use ks_base::{Bytes, Key, Memory};
use ks_hmac::hmac;
use std::alloc::Global;

/// A key that opens: as it is, so that a text which is no token costs nothing of what a key needs,
/// or taken in before.
#[derive(Clone, Copy)]
pub(crate) enum Opener<'a> {
    Plain(&'a Key),
    Taken(&'a OpeningKey),
}

impl Opener<'_> {
    pub(crate) fn key(&self) -> &Key
        ensures { result.now ≡ key_of self.now }
    {
        match self {
            Opener::Plain(key) => key,
            Opener::Taken(taken) => taken.key(),
        }
    }

    /// The mac of what stands before it in a token.
    pub(crate) fn mac_of(&self, signed: &[u8]) -> [u8; 32]
        ensures { result ≡ hmac_of (key_of self.now).signing signed.now }
    {
        match self {
            Opener::Plain(key) => hmac(&key.signing, signed),
            Opener::Taken(taken) => taken.signing().sign(signed),
        }
    }

    /// What the ciphertext holds, if its padding is one.
    pub(crate) fn decipher(
        &self,
        alloc: Global,
        iv: &[u8; 16],
        ciphertext: &[u8],
    ) -> Result<Option<Bytes>, Memory>
        ensures { IfOk result (λ plain. plain ≡ uncbc (key_of self.now).encryption iv.now ciphertext.now) }
    {
        let plain = match self {
            Opener::Plain(key) => cbc_open(alloc, &key.encryption, iv, ciphertext)?,
            Opener::Taken(taken) => taken.encryption().open_cbc(alloc, iv, ciphertext)?,
        };
        Ok(plain.map(Bytes::from_vec))
    }
}
