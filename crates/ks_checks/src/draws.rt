//! What is made of the 64 random bytes of a request: 16 are for an id, 16 for a salt or an iv, and 32 for a key.
ghost use Rattle.std.specs.Prelude.{◌≡◌, ◌+◌, ◌≤◌, take, drop};
ghost use Rattle.ks_base.specs.declared.receipt.Drawn.{Drawn};
ghost use Rattle.ks_machine.specs.Outcomes.{id_bytes, key, made_id, salt, uuid};

use ks_base::{Id, Key};
use ks_payload::unpacked;
use uuid::{Builder, Uuid};

/// The id of a new row: the lower hex digits of a UUID of version 4 (RFC 9562, section 5.4).
#[tactic(auto, unfolding(ks_machine::specs::Outcomes::made_id))]
pub fn made_id(drawn: &[u8; 64]) -> Id
    ensures { result ≡ made_id (Drawn.Bytes drawn.now) }
{
    unpacked(version_4(sixteen(drawn, 0)).as_bytes())
}

/// The bytes for an id, which are also an audit id.
pub fn id_bytes(drawn: &[u8; 64]) -> [u8; 16]
    ensures { result ≡ id_bytes (Drawn.Bytes drawn.now) }
{
    sixteen(drawn, 0)
}

/// The salt, which is also an iv.
pub fn salt(drawn: &[u8; 64]) -> [u8; 16]
    ensures { result ≡ salt (Drawn.Bytes drawn.now) }
{
    sixteen(drawn, 16)
}

/// The key.
pub fn key(drawn: &[u8; 64]) -> Key
    ensures { result ≡ key (Drawn.Bytes drawn.now) }
{
    Key {
        signing: sixteen(drawn, 32),
        encryption: sixteen(drawn, 48),
    }
}

/// The 16 bytes behind this place.
fn sixteen(drawn: &[u8; 64], at: usize) -> [u8; 16]
    requires { at + 16 ≤ 64 }
    ensures { result ≡ take 16 (drop at drawn.now) }
{
    let mut bytes = [0u8; 16];
    bytes.copy_from_slice(&drawn[at..at + 16]);
    bytes
}

/// The UUID of version 4 of these random bytes.
#[tactic(auto, using(crate::proofs::RandomIds::version_4_is))]
fn version_4(random: [u8; 16]) -> Uuid
    ensures { result ≡ uuid random }
{
    Builder::from_random_bytes(random).into_uuid()
}
