ghost use Rattle.std.specs.Prelude.{◌≡◌, ◌≤◌, length, IfOk};
ghost use Rattle.ks_base.specs.declared.limits.TheConstants.{TOKEN_BYTES};
ghost use Rattle.ks_fernet.specs.declared.opening.OpenAnswer.TheVariants.{Yes};
ghost use Rattle.ks_aes_cbc.specs.Aes.{AreBytes};
ghost use Rattle.ks_fernet.specs.Opening.{open_of, signed_bytes, token_text};

use crate::base64_url::bare_text;
use crate::envelope::VERSION;
use ks_aes_cbc::cbc_seal;
use ks_base::{Key, Memory, Text};
use ks_hmac::hmac;
use std::alloc::{AllocError, Global};

/// Seals a plain text: a token of version 0x80 with no `=`, whose mac covers all that stands before
/// it. The time is in seconds since the start of 1970. The iv has to be a new one for each token.
pub fn seal(
    alloc: Global,
    key: &Key,
    time: u64,
    iv: &[u8; 16],
    plain: &[u8],
) -> Result<Text, Memory>
    requires { length plain.now ≤ 640 }
    ensures text { IfOk result (λ t. t ≡ token_text key.now time iv.now plain.now) }
    ensures opens { IfOk result (λ t. open_of key.now t ≡ Yes time plain.now) }
    ensures short { IfOk result (λ t. length t ≤ TOKEN_BYTES) }
{
    let ciphertext = cbc_seal(alloc, &key.encryption, iv, plain)?;
    let mut bytes = signed_bytes(alloc, time, iv, ciphertext.as_slice())?;
    let mac = hmac(&key.signing, bytes.as_slice());
    bytes.extend_from_slice(&mac)?;
    bare_text(alloc, bytes.as_slice())
}

/// What the mac is of, with room for the mac.
fn signed_bytes(
    alloc: Global,
    time: u64,
    iv: &[u8; 16],
    ciphertext: &[u8],
) -> Result<Vec<u8>, AllocError>
    requires { length ciphertext.now ≤ 656 }
    ensures put { IfOk result (λ bytes. bytes.items ≡ signed_bytes time iv.now ciphertext.now) }
    ensures of_bytes { AreBytes ciphertext.now }
{
    let mut bytes = Vec::with_capacity(alloc, 57 + ciphertext.len())?;
    bytes.push(VERSION)?;
    bytes.extend_from_slice(&time.to_be_bytes())?;
    bytes.extend_from_slice(iv)?;
    bytes.extend_from_slice(ciphertext)?;
    Ok(bytes)
}
