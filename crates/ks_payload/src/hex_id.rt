//! Ids of 32 lower hex digits, and the 16 bytes that they stand for.
ghost use Rattle.std.specs.Prelude.{◌≡◌, IsTrue};
ghost use Rattle.std.specs.List.{list_all};
ghost use Rattle.hex.specs.Hex.{encode_lower};
ghost use Rattle.ks_payload.specs.IdFields.{is_lower_digit, is_hex_id, bytes_of_digits};

use ks_base::Id;

fn is_lower_digit(byte: u8) -> bool
    ensures { result ≡ is_lower_digit byte }
{
    matches!(byte, b'0'..=b'9' | b'a'..=b'f')
}

fn are_lower_digits(text: &[u8]) -> bool
    ensures { result ≡ list_all is_lower_digit text.now }
{
    text.iter().all(|byte| is_lower_digit(*byte))
}

/// Whether this is 32 lower hex digits.
#[tactic(auto, unfolding(crate::specs::IdFields::is_hex_id))]
pub fn is_hex_id(id: &[u8]) -> bool
    ensures { result ≡ is_hex_id id.now }
{
    if id.len() != 32 {
        return false;
    }
    are_lower_digits(id)
}

/// The 16 bytes whose digits the id is.
pub fn packed(id: &[u8]) -> [u8; 16]
    requires { IsTrue (is_hex_id id.now) }
    ensures { result ≡ bytes_of_digits id.now }
{
    let mut bytes = [0u8; 16];
    let Ok(()) = hex::decode_to_slice(id, &mut bytes) else {
        unreachable!();
    };
    bytes
}

/// The id of 32 lower hex digits that spell these bytes, as an id field reads it.
pub fn unpacked(bytes: &[u8; 16]) -> Id
    ensures { result ≡ encode_lower bytes.now }
{
    let mut digits = [0u8; 32];
    let Ok(()) = hex::encode_to_slice(bytes.as_slice(), &mut digits) else {
        unreachable!();
    };
    let Ok(id) = Id::read(&digits) else {
        unreachable!();
    };
    id
}
