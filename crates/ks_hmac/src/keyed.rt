// A key that has been taken in: the two hashers that each message under the key begins from.

ghost use Rattle.std.specs.Prelude.{◌≡◌, ℕ, ◌≤◌, List, ◌++◌, length};
ghost use Rattle.sha2.specs.Hashers.{Holds256};
ghost use Rattle.ks_hmac.specs.Hmac.{block_key, hmac_of, padded, zero_filled};
ghost use Rattle.ks_hmac.specs.Keyed.{IsKeyed};

use sha2::{Digest, Sha256};

// What SHA-256 takes in at a time, in bytes.
const BLOCK_LEN: usize = 64;

const INNER_PAD: u8 = 0x36;

const OUTER_PAD: u8 = 0x5c;

fn zero_filled(bytes: &[u8]) -> [u8; BLOCK_LEN]
    requires { length bytes.now ≤ 64 }
    ensures { result ≡ zero_filled bytes.now }
{
    let mut block = [0; BLOCK_LEN];
    block[..bytes.len()].copy_from_slice(bytes);
    block
}

fn block_key(key: &[u8]) -> [u8; BLOCK_LEN]
    ensures { result ≡ block_key key.now }
{
    if key.len() > BLOCK_LEN {
        let digest: [u8; 32] = Sha256::digest(key);
        return zero_filled(&digest);
    }
    zero_filled(key)
}

fn padded(block: &[u8; BLOCK_LEN], pad: u8) -> [u8; BLOCK_LEN]
    ensures { result ≡ padded block.now pad }
{
    let mut bytes = [0; BLOCK_LEN];
    for (i, byte) in block.iter().enumerate() {
        bytes[i] = byte ^ pad;
    }
    bytes
}

// Each pad fills a whole block, so the work for it is done once for a key.
#[derive(Drop)]
pub(crate) struct KeyedHash {
    inner: Sha256,
    outer: Sha256,
}

impl KeyedHash {
    pub(crate) fn new(key: &[u8]) -> Self
        ensures { IsKeyed result key.now }
    {
        let block = block_key(key);
        KeyedHash {
            inner: Sha256::new_with_prefix(&padded(&block, INNER_PAD)),
            outer: Sha256::new_with_prefix(&padded(&block, OUTER_PAD)),
        }
    }

    // A hasher that is to take in a message.
    pub(crate) fn start(&self) -> Sha256
        ensures { (key : List ℕ) → IsKeyed self.now key
            → Holds256 result (padded (block_key key) 0x36) }
    {
        let Ok(inner) = self.inner.clone() else {
            unreachable!();
        };
        inner
    }

    // The code of the message that `inner` has taken in since its start.
    pub(crate) fn finish(&self, inner: Sha256) -> [u8; 32]
        ensures { (key message : List ℕ) → IsKeyed self.now key
            → Holds256 inner (padded (block_key key) 0x36 ++ message)
            → result ≡ hmac_of key message }
    {
        let Ok(mut outer) = self.outer.clone() else {
            unreachable!();
        };
        let digest: [u8; 32] = inner.finalize();
        outer.update(&digest);
        outer.finalize()
    }

    pub(crate) fn sign(&self, message: &[u8]) -> [u8; 32]
        ensures { (key : List ℕ) → IsKeyed self.now key → result ≡ hmac_of key message.now }
    {
        let mut inner = self.start();
        inner.update(message);
        self.finish(inner)
    }
}
