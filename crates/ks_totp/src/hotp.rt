//! Codes from a counter (HOTP, RFC 4226) and from the time (TOTP, RFC 6238).
ghost use Rattle.std.specs.Prelude.{◌≡◌, ◌<◌, ◌^◌};
ghost use Rattle.ks_totp.specs.Hotp.{fits_at, hotp_of, truncated};

use crate::hmac_sha1;

/// How long a code stands, in seconds.
const STEP: u64 = 30;

/// How many codes there are: as many as six decimal digits give.
const CODES: u32 = 1_000_000;

/// The dynamic truncation of a message authentication code (RFC 4226, section 5.3): the low four bits of its last byte tell
/// where four bytes begin, of which the highest bit is left out.
fn truncated(mac: &[u8; 20]) -> u32
    ensures { result ≡ truncated mac.now }
{
    let offset = usize::from(mac[19] % 16);
    let word = u32::from_be_bytes([
        mac[offset],
        mac[offset + 1],
        mac[offset + 2],
        mac[offset + 3],
    ]);
    word % 0x8000_0000
}

/// The code of six decimal digits, as a number, that the secret gives at the counter (RFC 4226, section 5.3). It takes no
/// memory.
#[tactic(auto, unfolding(crate::specs::Hotp::hotp_of))]
pub fn code(secret: &[u8], counter: u64) -> u32
    ensures code { result ≡ hotp_of secret.now counter }
    ensures digits { result < 10 ^ 6 }
{
    truncated(&hmac_sha1(secret, &counter.to_be_bytes())) % CODES
}

/// Whether the secret gives this code at the moment, in seconds since 1970-01-01T00:00:00Z, or 30 seconds before. Both codes
/// are made and compared in any case, so that the time taken does not tell which of them it is.
pub(crate) fn fits_at(secret: &[u8], wanted: u32, moment: u64) -> bool
    ensures { result ≡ fits_at secret.now wanted moment }
{
    let step = moment / STEP;
    let now = code(secret, step) == wanted;
    let before = step > 0 && code(secret, step - 1) == wanted;
    now | before
}
