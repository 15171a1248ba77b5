//! Base32 (RFC 4648, section 6).
ghost use Rattle.std.specs.Prelude.{◌≡◌, ◌≢◌, ◌⊎◌, ◌==◌, ◌+◌, ◌*◌, ◌%◌, ◌<◌, ◌≤◌, ◌^◌, ℕ, true, false, List, length, map, replicate, slice_index, IfOk, IfSome, IfNone};
ghost use Rattle.std.specs.List.{list_all, range_with_len};
ghost use Rattle.ks_totp.specs.Base32.{base32_of, bit_of, eight_from, five_from, letter_of, AreFivesOf, IsBase32};

use ks_base::{Bytes, Memory, Text};
use std::alloc::{AllocError, Global};

/// The letter of each five bits.
const LETTERS: &[u8; 32] = b"ABCDEFGHIJKLMNOPQRSTUVWXYZ234567";

/// What fills a text up.
const PAD: u8 = b'=';

/// The digit at this place; 0 behind the last one.
fn digit(digits: &[u8], place: usize) -> u8
    ensures { result ≡ slice_index digits.now place }
{
    digits.get(place).copied().unwrap_or(0)
}

/// The bit at this place of digits that have this many bits each; 0 behind the last one.
#[tactic(auto, unfolding(crate::specs::Base32::bit_of))]
fn bit(digits: &[u8], width: usize, place: usize) -> u8
    requires some { 0 < width }
    requires few { width ≤ 8 }
    ensures bit { result ≡ bit_of width digits.now place }
    ensures small { result < 2 }
{
    (digit(digits, place / width) >> (width - 1 - place % width)) % 2
}

/// The five bits of the bytes from this place on.
#[tactic(auto, unfolding(crate::specs::Base32::five_from))]
fn five_from(bytes: &[u8], place: usize) -> u8
    requires { place + 5 < 2 ^ 64 }
    ensures five { result ≡ five_from bytes.now place }
    ensures small { result < 32 }
{
    16 * bit(bytes, 8, place)
        + 8 * bit(bytes, 8, place + 1)
        + 4 * bit(bytes, 8, place + 2)
        + 2 * bit(bytes, 8, place + 3)
        + bit(bytes, 8, place + 4)
}

/// The eight bits of the fives from this place on.
#[tactic(auto, unfolding(crate::specs::Base32::eight_from))]
fn eight_from(fives: &[u8], place: usize) -> u8
    requires { place + 8 < 2 ^ 64 }
    ensures { result ≡ eight_from fives.now place }
{
    128 * bit(fives, 5, place)
        + 64 * bit(fives, 5, place + 1)
        + 32 * bit(fives, 5, place + 2)
        + 16 * bit(fives, 5, place + 3)
        + 8 * bit(fives, 5, place + 4)
        + 4 * bit(fives, 5, place + 5)
        + 2 * bit(fives, 5, place + 6)
        + bit(fives, 5, place + 7)
}

/// The letter of five bits.
#[tactic(auto, using(crate::proofs::LetterLemmas::letter_small), unfolding(crate::specs::Base32::letter_of))]
fn letter(five: u8) -> u8
    requires { five < 32 }
    ensures letter { result ≡ letter_of five }
    ensures ascii { result < 128 }
{
    LETTERS[usize::from(five)]
}

/// The five bits of a letter.
#[tactic(auto, using(crate::proofs::LetterLemmas::letter_capital, crate::proofs::LetterLemmas::letter_digit))]
fn five_of(letter: u8) -> Option<u8>
    ensures some { IfSome result (λ five. (five < 32) × (letter_of five ≡ letter)) }
    ensures none { IfNone result ((five : ℕ) → five < 32 → letter_of five ≡ letter → ⊥) }
{
    match letter {
        b'A'..=b'Z' => Some(letter - b'A'),
        b'2'..=b'7' => Some(letter - b'2' + 26),
        _ => None,
    }
}

/// The text of the bytes, in upper case and with no padding.
pub fn write_base32(alloc: Global, bytes: &[u8]) -> Result<Text, Memory>
    ensures { IfOk result (λ text. text ≡ base32_of bytes.now) }
{
    // A text of more bits has no place in memory.
    let Some(bits) = bytes.len().checked_mul(8) else {
        return Err(Memory);
    };
    let mut text = String::new(alloc);
    for i in 0..bits.div_ceil(5) {
        let next = letter(five_from(bytes, 5 * i));
        text.push(char::from(next))?;
    }
    Text::of(alloc, text.as_str())
}

/// The fives of letters; `None` where one is no letter.
fn fives_of(alloc: Global, letters: &[u8]) -> Result<Option<Vec<u8>>, AllocError>
    ensures some { IfOk result (λ found. IfSome found (λ fives. AreFivesOf fives.items letters.now)) }
    ensures none { IfOk result (λ found. IfNone found ((bytes : List ℕ) → letters.now ≡ base32_of bytes → ⊥)) }
{
    let mut fives = Vec::with_capacity(alloc, letters.len())?;
    for letter in letters {
        match five_of(*letter) {
            Some(five) => fives.push(five)?,
            None => return Ok(None),
        }
    }
    Ok(Some(fives))
}

/// Whether a bit from this place to that one is set.
fn any_set(fives: &[u8], from: usize, to: usize) -> bool
    requires { from ≤ to }
    ensures unset { result ≡ false → (n : ℕ) → from ≤ n → n < to → bit_of 5 fives.now n ≡ 0 }
    ensures set { result ≡ true → (n : ℕ) × (from ≤ n) × (n < to) × (bit_of 5 fives.now n ≡ 1) }
{
    for place in from..to {
        if bit(fives, 5, place) == 1 {
            return true;
        }
    }
    false
}

/// So many bytes of the bits of fives.
fn gathered(alloc: Global, fives: &[u8], count: usize) -> Result<Vec<u8>, AllocError>
    requires { 8 * count < 2 ^ 64 }
    ensures { IfOk result (λ bytes. bytes.items ≡ map (λ i. eight_from fives.now (8 * i)) (range_with_len 0 count)) }
{
    let mut bytes = Vec::with_capacity(alloc, count)?;
    for i in 0..count {
        bytes.push(eight_from(fives, 8 * i))?;
    }
    Ok(bytes)
}

/// The bytes whose base32 the letters are, if there are any.
fn read_letters(alloc: Global, letters: &[u8]) -> Result<Option<Bytes>, Memory>
    ensures some { IfOk result (λ found. IfSome found (λ bytes. letters.now ≡ base32_of bytes)) }
    ensures none { IfOk result (λ found. IfNone found ((bytes : List ℕ) → letters.now ≡ base32_of bytes → ⊥)) }
{
    // A text of more bits has no place in memory.
    let Some(bits) = letters.len().checked_mul(5) else {
        return Err(Memory);
    };
    let Some(fives) = fives_of(alloc, letters)? else {
        return Ok(None);
    };
    let unused = bits % 8;
    if unused >= 5 {
        return Ok(None);
    }
    if any_set(fives.as_slice(), bits - unused, bits) {
        return Ok(None);
    }
    let bytes = gathered(alloc, fives.as_slice(), bits / 8)?;
    Ok(Some(Bytes::from_vec(bytes)))
}

/// How many bytes come before the first that fills up.
fn letters_count(text: &[u8]) -> usize
    ensures within { result ≤ length text.now }
    ensures before { (k : ℕ) → k < result → slice_index text.now k ≢ 61 }
    ensures pad { result < length text.now → slice_index text.now result ≡ 61 }
{
    for (i, byte) in text.iter().enumerate() {
        if *byte == PAD {
            return i;
        }
    }
    text.len()
}

fn are_pads(bytes: &[u8]) -> bool
    ensures { result ≡ list_all (λ b. b == 61) bytes.now }
{
    bytes.iter().all(|byte| *byte == PAD)
}

/// Whether these are the bytes that fill up a text of so many in all, or none.
fn is_padding(bytes: &[u8], count: usize) -> bool
    ensures yes { result ≡ true → (bytes.now ≡ replicate (length bytes.now) 61) × ((length bytes.now ≡ 0) ⊎ ((length bytes.now < 8) × (count % 8 ≡ 0))) }
    ensures no { result ≡ false → (pads : ℕ) → bytes.now ≡ replicate pads 61 → (pads ≡ 0) ⊎ ((pads < 8) × (count % 8 ≡ 0)) → ⊥ }
{
    are_pads(bytes) && (bytes.is_empty() || (bytes.len() < 8 && count % 8 == 0))
}

/// The letters of a text before its padding; `None` where that is neither full nor absent.
fn unpadded(text: &[u8]) -> Option<&[u8]>
    ensures some { IfSome result (λ letters. (bytes : List ℕ) → letters.now ≡ base32_of bytes → IsBase32 text.now bytes) }
    ensures fair { IfSome result (λ letters. (bytes : List ℕ) → IsBase32 text.now bytes → letters.now ≡ base32_of bytes) }
    ensures none { IfNone result ((bytes : List ℕ) → IsBase32 text.now bytes → ⊥) }
{
    let (letters, padding) = text.split_at(letters_count(text));
    if is_padding(padding, text.len()) {
        return Some(letters);
    }
    None
}

/// The bytes that a text spells in upper case; `None` where it spells none: at another byte than one of the 32 letters, at
/// padding that is neither full nor absent, at a number of letters that no bytes have, and where a bit that no byte uses is
/// set.
pub fn read_base32(alloc: Global, text: &[u8]) -> Result<Option<Bytes>, Memory>
    ensures some { IfOk result (λ found. IfSome found (λ bytes. IsBase32 text.now bytes)) }
    ensures none { IfOk result (λ found. IfNone found ((bytes : List ℕ) → IsBase32 text.now bytes → ⊥)) }
{
    match unpadded(text) {
        Some(letters) => read_letters(alloc, letters),
        None => Ok(None),
    }
}
