ghost use Rattle.std.specs.Prelude.{◌≡◌, ◌≤◌, length, take, IfOk, IfSome, IfNone, Some, None};
ghost use Rattle.base64.specs.Decode.{decoded_estimate};
ghost use Rattle.base64.specs.GeneralPurpose.{decoded_of};
ghost use Rattle.ks_fernet.specs.Base64Url.{bare_text, bytes_of};

use base64::engine::GeneralPurpose;
use base64::engine::general_purpose::{URL_SAFE, URL_SAFE_NO_PAD};
use ks_base::{Memory, Text};
use std::alloc::Global;

/// Writes the bytes that the text spells to the front of `out`, and returns their number.
pub(crate) fn read_bytes(text: &[u8], out: &mut [u8]) -> Option<usize>
    requires { decoded_estimate (length text.now) ≤ length out.old }
    ensures read { IfSome result (λ n. bytes_of text.now ≡ Some (take n out.new)) }
    ensures within { IfSome result (λ n. n ≤ length out.new) }
    ensures none { IfNone result (bytes_of text.now ≡ None) }
{
    // A text with its full padding has a length divisible by four, and one with none that has such
    // a length needs none.
    if text.len() % 4 == 0 {
        return decode(&URL_SAFE, text, out);
    }
    decode(&URL_SAFE_NO_PAD, text, out)
}

#[tactic(auto, unfolding(base64::specs::GeneralPurpose::decoded_of))]
fn decode(engine: &GeneralPurpose, text: &[u8], out: &mut [u8]) -> Option<usize>
    requires { decoded_estimate (length text.now) ≤ length out.old }
    ensures read { IfSome result (λ n. decoded_of engine.now text.now ≡ Some (take n out.new)) }
    ensures within { IfSome result (λ n. n ≤ length out.new) }
    ensures none { IfNone result (decoded_of engine.now text.now ≡ None) }
{
    match engine.decode_slice_unchecked(text, out) {
        Ok(len) => Some(len),
        Err(_) => None,
    }
}

/// The text that spells the bytes with no padding.
pub(crate) fn bare_text(alloc: Global, bytes: &[u8]) -> Result<Text, Memory>
    requires { length bytes.now ≤ 768 }
    ensures { IfOk result (λ t. t ≡ bare_text bytes.now) }
{
    let mut buffer = [0u8; 1024];
    let Ok(len) = URL_SAFE_NO_PAD.encode_slice(bytes, &mut buffer) else {
        unreachable!();
    };
    match Text::read(alloc, &buffer[..len])? {
        Some(text) => Ok(text),
        None => unreachable!(),
    }
}
