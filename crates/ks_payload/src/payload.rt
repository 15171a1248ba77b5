use crate::reading::read_payload;
use crate::writing::{push_audits, push_id, push_id_if_any};
use ks_base::{Bytes, Id, Memory};
use std::alloc::Global;

/// The version that is written. Version 1 is read too.
pub(crate) const VERSION: u8 = 2;

/// The most bytes that a spelling has: three ids of 64 bytes behind their lengths, and both audit ids.
const LONGEST: usize = 3 + 3 * 65 + 8 + 33;

/// What a token says: who it is for, in which scope, and until when.
#[derive(Clone, Copy)]
pub struct Payload {
    /// 0 unscoped, 1 domain, 2 project, 3 trust, 4 system, 5 application credential.
    pub kind: u8,
    /// Bit 0 password, bit 1 token, bit 2 totp, bit 3 application credential.
    pub methods: u8,
    pub user: Id,
    /// Of kind 1.
    pub domain: Option<Id>,
    /// Of kinds 2, 3 and 5.
    pub project: Option<Id>,
    /// Of kind 3.
    pub trust: Option<Id>,
    /// Seconds since 1970.
    pub expires: u64,
    /// The token's own audit id.
    pub audit: [u8; 16],
    /// The audit id of the first token of the chain, where this is not the first.
    pub chain: Option<[u8; 16]>,
    /// The application credential, of kind 5.
    pub credential: Option<Id>,
}

impl Payload {
    ghost use Rattle.std.specs.Prelude.{◌≡◌, IfOk, IfSome, IsOk};
    ghost use Rattle.ks_payload.specs.Payloads.{IsInRange, IsPayload, spelling};
    ghost use Rattle.ks_payload.specs.Readings.{payload_of};

    /// The bytes that spell this payload in version 2.
    pub fn write(&self, alloc: Global) -> Result<Bytes, Memory>
        requires { IsInRange self.now }
        ensures spelled { IfOk result (λ bytes. bytes ≡ spelling self.now) }
        ensures payload { IfOk result (λ bytes. IsPayload bytes self.now) }
        ensures round_trip { IfOk result (λ bytes. payload_of bytes ≡ Some self.now) }
    {
        let mut out = Vec::with_capacity(alloc, LONGEST)?;
        out.extend_from_slice(&[VERSION, self.kind, self.methods])?;
        push_id(&mut out, &self.user)?;
        push_id_if_any(&mut out, &self.domain)?;
        push_id_if_any(&mut out, &self.project)?;
        push_id_if_any(&mut out, &self.trust)?;
        push_id_if_any(&mut out, &self.credential)?;
        out.extend_from_slice(&self.expires.to_be_bytes())?;
        push_audits(&mut out, &self.audit, &self.chain)?;
        Ok(Bytes::from_vec(out))
    }

    /// The payload that the bytes spell in version 2 or 1, or `None` where they spell none: a field is cut, out of its
    /// range or in a second spelling, or bytes follow the last. It takes no memory.
    pub fn read(bytes: &[u8]) -> Result<Option<Payload>, Memory>
        ensures some { IfOk result (λ read. IfSome read (λ p. IsPayload bytes.now p)) }
        ensures none { result ≡ Ok None → (p : Payload) → ¬ IsPayload bytes.now p }
        ensures value { result ≡ Ok (payload_of bytes.now) }
        ensures answered { IsOk result }
    {
        Ok(read_payload(bytes))
    }
}
