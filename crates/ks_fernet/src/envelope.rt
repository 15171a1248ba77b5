ghost use Rattle.std.specs.Prelude.{◌≡◌, ◌≢◌, ◌↔◌, ◌<◌, ◌≤◌, length, slice_index, take, IfOk, IfErr, IfSome, IfNone, IsSome, Some, None};
ghost use Rattle.ks_base.specs.declared.limits.TheConstants.{TOKEN_BYTES};
ghost use Rattle.ks_fernet.specs.Base64Url.{bytes_of};
ghost use Rattle.ks_fernet.specs.Opening.{signed_bytes};
ghost use Rattle.ks_fernet.specs.Token.{IsToken, IsNoText, HasOtherLength, HasOtherVersion, IsFaultIn, envelope_in, envelope_of, is_token_length, parts_of};

use crate::base64_url::read_bytes;
use ks_base::limits::TOKEN_BYTES;
use ks_base::{Bytes, Memory};
use std::alloc::Global;

/// The parts of a token whose mac has not been tested.
#[derive(Drop)]
pub struct Envelope {
    /// Seconds since the start of 1970.
    pub time: u64,
    pub iv: [u8; 16],
    /// A positive number of blocks of 16 bytes.
    pub ciphertext: Bytes,
    pub mac: [u8; 32],
}

/// Why a text has no parts of a token, tested in this order.
#[derive(Clone, Copy)]
pub enum EnvelopeFault {
    /// It is longer than 1,024 characters, or it is not base64url with its full padding or with none.
    NotText,
    /// It spells too few or too many bytes for a whole number of blocks.
    Length,
    /// Its first byte is not 0x80.
    Version,
    /// There was no memory for the ciphertext.
    Memory,
}

/// The bytes that so many characters may spell.
pub(crate) const ROOM: usize = 768;

pub(crate) const VERSION: u8 = 0x80;

impl Envelope {
    /// Reads the parts of a token of version 0x80. Its mac is not tested. Only the ciphertext takes
    /// memory.
    pub fn read(alloc: Global, text: &[u8]) -> Result<Envelope, EnvelopeFault>
        ensures token { IfOk result (λ e. IsToken text.now e) }
        ensures not_text { (result ≡ Err EnvelopeFault.NotText) ↔ IsNoText text.now }
        ensures length { (result ≡ Err EnvelopeFault.Length) ↔ HasOtherLength text.now }
        ensures version { (result ≡ Err EnvelopeFault.Version) ↔ HasOtherVersion text.now }
        ensures memory { result ≡ Err EnvelopeFault.Memory → IsSome (envelope_of text.now) }
        ensures value { IfOk result (λ e. envelope_of text.now ≡ Some e) }
        ensures none { IfErr result (λ fault. fault ≢ EnvelopeFault.Memory → envelope_of text.now ≡ None) }
    {
        let mut buffer = [0u8; ROOM];
        let Some(len) = read_text(text, &mut buffer) else {
            return Err(EnvelopeFault::NotText);
        };
        Envelope::from_bytes(alloc, &buffer[..len])
    }

    fn from_bytes(alloc: Global, bytes: &[u8]) -> Result<Envelope, EnvelopeFault>
        ensures ok { IfOk result (λ e. envelope_in bytes.now ≡ Some e) }
        ensures err { IfErr result (IsFaultIn bytes.now) }
    {
        if let Some(fault) = fault_in(bytes) {
            return Err(fault);
        }
        let parts = Parts::of(bytes);
        let Ok(ciphertext) = Bytes::of(alloc, parts.ciphertext) else {
            return Err(EnvelopeFault::Memory);
        };
        Ok(Envelope {
            time: parts.time,
            iv: *parts.iv,
            ciphertext,
            mac: *parts.mac,
        })
    }
}

/// Writes the bytes that a text of at most 1,024 characters spells to the front of `out`, and returns
/// their number.
pub(crate) fn read_text(text: &[u8], out: &mut [u8; ROOM]) -> Option<usize>
    ensures read { IfSome result (λ n. (length text.now ≤ TOKEN_BYTES) × (bytes_of text.now ≡ Some (take n out.new))) }
    ensures within { IfSome result (λ n. n ≤ length out.new) }
    ensures none { IfNone result (IsNoText text.now × (envelope_of text.now ≡ None)) }
{
    if text.len() > TOKEN_BYTES {
        return None;
    }
    read_bytes(text, out)
}

/// Why the bytes are no token's: their number first, and then their version.
pub(crate) fn fault_in(bytes: &[u8]) -> Option<EnvelopeFault>
    ensures fault { IfSome result (λ fault. IsFaultIn bytes.now fault × (envelope_in bytes.now ≡ None)) }
    ensures long { IfNone result (57 < length bytes.now) }
    ensures version { IfNone result (slice_index bytes.now 0 ≡ 0x80) }
    ensures none { IfNone result (envelope_in bytes.now ≡ Some (parts_of bytes.now)) }
{
    if !is_token_length(bytes.len()) {
        return Some(EnvelopeFault::Length);
    }
    if bytes[0] != VERSION {
        return Some(EnvelopeFault::Version);
    }
    None
}

/// Whether a token may have so many bytes: 57 beside its ciphertext, which is a positive number of
/// blocks of 16.
fn is_token_length(len: usize) -> bool
    ensures { result ≡ is_token_length len }
{
    len > 57 && (len - 57) % 16 == 0
}

/// The parts of a token's bytes, where they stand.
#[derive(Clone, Copy)]
pub(crate) struct Parts<'a> {
    /// What the mac is of: all that stands before it.
    pub(crate) signed: &'a [u8],
    pub(crate) time: u64,
    pub(crate) iv: &'a [u8; 16],
    pub(crate) ciphertext: &'a [u8],
    pub(crate) mac: &'a [u8; 32],
}

impl<'a> Parts<'a> {
    pub(crate) fn of(bytes: &'a [u8]) -> Parts<'a>
        requires long { 57 < length bytes.now }
        requires version { slice_index bytes.now 0 ≡ 0x80 }
        ensures signed { let e = parts_of bytes.now in result.signed.now ≡ signed_bytes e.time e.iv e.ciphertext }
        ensures time { result.time ≡ (parts_of bytes.now).time }
        ensures iv { result.iv.now ≡ (parts_of bytes.now).iv }
        ensures ciphertext { result.ciphertext.now ≡ (parts_of bytes.now).ciphertext }
        ensures mac { result.mac.now ≡ (parts_of bytes.now).mac }
    {
        let Some((signed, mac)) = bytes.split_last_chunk::<32>() else {
            unreachable!();
        };
        let (_version, rest) = signed.split_at(1);
        let Some((time, rest)) = rest.split_first_chunk::<8>() else {
            unreachable!();
        };
        let Some((iv, ciphertext)) = rest.split_first_chunk::<16>() else {
            unreachable!();
        };
        Parts {
            signed,
            time: u64::from_be_bytes(*time),
            iv,
            ciphertext,
            mac,
        }
    }
}
