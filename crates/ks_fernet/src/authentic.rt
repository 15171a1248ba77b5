//! Tokens whose code has been compared. Nothing else is deciphered.
ghost use Rattle.std.specs.Prelude.{◌≡◌, ◌≢◌, IfOk, IfSome, IfNone};
ghost use Rattle.ks_aes_cbc.specs.Cbc.{uncbc};
ghost use Rattle.ks_fernet.specs.Opener.{key_of};
ghost use Rattle.ks_hmac.specs.Hmac.{hmac_of};

use crate::envelope::Parts;
use crate::opener::Opener;
use ks_base::{Bytes, Memory};
use ks_hmac::same;
use std::alloc::Global;

/// The parts of a token that the key has signed. The comparison of the codes alone makes one, so no ciphertext is
/// deciphered before it.
#[derive(Clone, Copy)]
pub(crate) struct Authentic<'a> {
    opener: Opener<'a>,
    parts: Parts<'a>,
    ghost compared: { parts.mac.now ≡ hmac_of (key_of opener).signing parts.signed.now },
}

impl<'a> Authentic<'a> {
    /// The parts, where their code is the one that the key gives them.
    pub(crate) fn of(opener: &Opener<'a>, parts: &Parts<'a>) -> Option<Authentic<'a>>
        ensures opener { IfSome result (λ found. found.opener ≡ opener.now) }
        ensures iv { IfSome result (λ found. found.parts.iv.now ≡ parts.now.iv.now) }
        ensures ciphertext { IfSome result (λ found. found.parts.ciphertext.now ≡ parts.now.ciphertext.now) }
        ensures signed { IfSome result (λ found. parts.now.mac.now ≡ hmac_of (key_of opener.now).signing parts.now.signed.now) }
        ensures none { IfNone result (parts.now.mac.now ≢ hmac_of (key_of opener.now).signing parts.now.signed.now) }
    {
        if !same(parts.mac, &opener.mac_of(parts.signed)) {
            return None;
        }
        Some(Authentic {
            opener: *opener,
            parts: *parts,
        })
    }

    /// What the ciphertext holds, if its padding is one.
    pub(crate) fn decipher(&self, alloc: Global) -> Result<Option<Bytes>, Memory>
        ensures { IfOk result (λ plain. plain
            ≡ uncbc (key_of self.now.opener).encryption self.now.parts.iv.now self.now.parts.ciphertext.now) }
    {
        let parts = &self.parts;
        self.opener.decipher(alloc, parts.iv, parts.ciphertext)
    }
}
