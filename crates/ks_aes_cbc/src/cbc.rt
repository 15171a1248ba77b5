//! AES-128 in cipher block chaining, with padding.
ghost use Rattle.std.specs.Prelude.{◌≡◌, ◌≢◌, ℕ, ◌+◌, ◌*◌, ◌/◌, ◌%◌, ◌<◌, ◌≤◌, List, length, take, replicate, Some, option_map, IfOk, IfSome, IfNone, IsTrue, ◌↔◌};
ghost use Rattle.ks_aes_cbc.specs.Aes.{AreBytes, IsBlock};
ghost use Rattle.ks_aes_cbc.specs.Cbc.{pad, cbc, uncbc};
ghost use Rattle.ks_aes_cbc.specs.Inverse.{uncbc_blocks};

use crate::aes::Aes128;
use crate::columns::{append, columns, summed};
use std::alloc::{AllocError, Global};

/// The bytes of one block at most, less one, with their padding.
fn padded(bytes: &[u8]) -> [u8; 16]
    requires { length bytes.now < 16 }
    ensures { result ≡ pad bytes.now }
{
    let mut block = [(16 - bytes.len()) as u8; 16];
    block[..bytes.len()].copy_from_slice(bytes);
    block
}

fn all_are(bytes: &[u8], value: u8) -> bool
    ensures { IsTrue result ↔ (bytes.now ≡ replicate (length bytes.now) value) }
{
    bytes.iter().all(|b| *b == value)
}

/// How many bytes stand before the padding, which is compared whole.
fn unpadded_len(bytes: &[u8]) -> Option<usize>
    requires { length bytes.now % 16 ≡ 0 }
    ensures some { IfSome result (λ n.
        (n ≤ length bytes.now) × (pad (take n bytes.now) ≡ bytes.now)) }
    ensures none { IfNone result ((p : List ℕ) → pad p ≢ bytes.now) }
{
    if bytes.is_empty() {
        return None;
    }
    let last = bytes[bytes.len() - 1];
    let count = usize::from(last);
    if count == 0 || count > 16 {
        return None;
    }
    let front = bytes.len() - count;
    let (_, padding) = bytes.split_at(front);
    if all_are(padding, last) {
        Some(front)
    } else {
        None
    }
}

/// Seals bytes under a key and an initialization vector, each of 16 bytes: CBC (SP 800-38A, section 6.2)
/// of the bytes with their padding (RFC 5652, section 6.3). What comes out is 1 to 16 bytes longer than
/// what goes in. The one error is want of memory.
pub fn cbc_seal(
    alloc: Global,
    key: &[u8; 16],
    iv: &[u8; 16],
    plain: &[u8],
) -> Result<Vec<u8>, AllocError>
    ensures sealed { IfOk result (λ v. v.items ≡ cbc key.now iv.now (pad plain.now)) }
    ensures opens { IfOk result (λ v. uncbc key.now iv.now v.items ≡ Some plain.now) }
    ensures length { IfOk result (λ v. length v.items ≡ 16 * (length plain.now / 16 + 1)) }
{
    let aes = Aes128::new(key);
    let mut out = Vec::with_capacity(alloc, (plain.len() / 16 + 1) * 16)?;
    let mut previous = columns(iv);
    let mut left = plain;
    while let Some((block, rest)) = left.split_first_chunk::<16>() {
        previous = aes.seal_columns(&summed(&columns(block), &previous));
        append(&mut out, &previous)?;
        left = rest;
    }
    append(
        &mut out,
        &aes.seal_columns(&summed(&columns(&padded(left)), &previous)),
    )?;
    Ok(out)
}

/// The blocks that whole blocks were sealed of, with their padding.
fn opened_blocks(
    alloc: Global,
    aes: &Aes128,
    iv: &[u8; 16],
    sealed: &[u8],
) -> Result<Vec<u8>, AllocError>
    requires key { IsBlock aes.now }
    requires whole { length sealed.now % 16 ≡ 0 }
    ensures { IfOk result (λ v.
        v.items ≡ uncbc_blocks (length sealed.now / 16) aes.now iv.now sealed.now) }
{
    let mut out = Vec::with_capacity(alloc, sealed.len())?;
    let mut previous = columns(iv);
    let mut left = sealed;
    while let Some((block, rest)) = left.split_first_chunk::<16>() {
        let sealed_block = columns(block);
        append(
            &mut out,
            &summed(&aes.open_columns(&sealed_block), &previous),
        )?;
        previous = sealed_block;
        left = rest;
    }
    Ok(out)
}

/// The one list of bytes that [`cbc_seal`] makes these of, under the same key and initialization vector.
/// `None` where there is none: the length is no positive multiple of 16, or the padding is wrong. The one
/// error is want of memory.
pub fn cbc_open(
    alloc: Global,
    key: &[u8; 16],
    iv: &[u8; 16],
    sealed: &[u8],
) -> Result<Option<Vec<u8>>, AllocError>
    ensures opened { IfOk result (λ found.
        option_map (λ v. v.items) found ≡ uncbc key.now iv.now sealed.now) }
    ensures some { IfOk result (λ found. IfSome found (λ v.
        AreBytes v.items × (cbc key.now iv.now (pad v.items) ≡ sealed.now)
        × (length v.items < length sealed.now))) }
    ensures none { IfOk result (λ found. IfNone found (
        (p : List ℕ) → AreBytes p → cbc key.now iv.now (pad p) ≢ sealed.now)) }
{
    Aes128::new(key).open_cbc(alloc, iv, sealed)
}

impl Aes128 {
    /// [`cbc_open`] under this key.
    pub fn open_cbc(
        &self,
        alloc: Global,
        iv: &[u8; 16],
        sealed: &[u8],
    ) -> Result<Option<Vec<u8>>, AllocError>
        ensures opened { IfOk result (λ found.
            option_map (λ v. v.items) found ≡ uncbc self.now iv.now sealed.now) }
        ensures some { IfOk result (λ found. IfSome found (λ v.
            AreBytes v.items × (cbc self.now iv.now (pad v.items) ≡ sealed.now)
            × (length v.items < length sealed.now))) }
        ensures none { IfOk result (λ found. IfNone found (
            (p : List ℕ) → AreBytes p → cbc self.now iv.now (pad p) ≢ sealed.now)) }
    {
        self.has_block_key();
        if sealed.len() % 16 != 0 {
            return Ok(None);
        }
        let mut out = opened_blocks(alloc, self, iv, sealed)?;
        let Some(n) = unpadded_len(out.as_slice()) else {
            return Ok(None);
        };
        out.truncate(n);
        Ok(Some(out))
    }
}
