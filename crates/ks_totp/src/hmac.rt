//! Message authentication codes: HMAC (RFC 2104) over SHA-1.
ghost use Rattle.std.specs.Prelude.{◌≡◌, ◌≤◌, length};
ghost use Rattle.ks_totp.specs.Hmac.{block_key, hmac_sha1_of, padded, zero_filled};

use sha1::Sha1;

/// What SHA-1 takes in at a time, in bytes.
const BLOCK_BYTES: usize = 64;

const INNER_PAD: u8 = 0x36;

const OUTER_PAD: u8 = 0x5c;

fn zero_filled(bytes: &[u8]) -> [u8; BLOCK_BYTES]
    requires { length bytes.now ≤ 64 }
    ensures { result ≡ zero_filled bytes.now }
{
    let mut block = [0; BLOCK_BYTES];
    block[..bytes.len()].copy_from_slice(bytes);
    block
}

fn block_key(key: &[u8]) -> [u8; BLOCK_BYTES]
    ensures { result ≡ block_key key.now }
{
    if key.len() > BLOCK_BYTES {
        return zero_filled(&Sha1::digest(key));
    }
    zero_filled(key)
}

fn padded(block: &[u8; BLOCK_BYTES], pad: u8) -> [u8; BLOCK_BYTES]
    ensures { result ≡ padded block.now pad }
{
    let mut bytes = [0; BLOCK_BYTES];
    for (i, byte) in block.iter().enumerate() {
        bytes[i] = byte ^ pad;
    }
    bytes
}

/// The code of the message under the key: HMAC with SHA-1 (RFC 2104). A key may have any length; one above 64 bytes counts
/// as its digest, so such a key and its digest give the same codes. It takes no memory.
#[tactic(auto, unfolding(crate::specs::Hmac::hmac_sha1_of))]
pub fn hmac_sha1(key: &[u8], message: &[u8]) -> [u8; 20]
    ensures { result ≡ hmac_sha1_of key.now message.now }
{
    let block = block_key(key);
    let mut inner = Sha1::new();
    inner.update(&padded(&block, INNER_PAD));
    inner.update(message);
    let mut outer = Sha1::new();
    outer.update(&padded(&block, OUTER_PAD));
    outer.update(&inner.finalize());
    outer.finalize()
}
