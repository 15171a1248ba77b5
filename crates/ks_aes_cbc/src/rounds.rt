//! The rounds of AES on words of 32 bits: SubBytes, ShiftRows and MixColumns of a column by four tables.
ghost use Rattle.std.specs.Prelude.{◌≡◌, ◌∷◌, []};
ghost use Rattle.std.specs.Int.{w32, to_be_bytes, byte_at};
ghost use Rattle.ks_aes_cbc.specs.Aes.{sbox, sub_bytes, shift_rows, mix_columns, circulant, xor_bytes, next_round_key};
ghost use Rattle.ks_aes_cbc.specs.Inverse.{unsbox, unsub_bytes, unshift_rows, unmix_columns};
ghost use Rattle.ks_aes_cbc.specs.Columns.{block_of};

use crate::columns::Columns;
use crate::tables::{
    INVERSE_SBOX, OPEN_ROW_0, OPEN_ROW_1, OPEN_ROW_2, OPEN_ROW_3, SBOX, SEAL_ROW_0, SEAL_ROW_1,
    SEAL_ROW_2, SEAL_ROW_3,
};

/// A column of a round, of the words whose bytes ShiftRows brings to it.
fn sealed_column(a: u32, b: u32, c: u32, d: u32, key: u32) -> u32
    ensures { to_be_bytes w32 result
        ≡ xor_bytes (circulant 2 3 1 1
        (sbox (byte_at 3 a)) (sbox (byte_at 2 b)) (sbox (byte_at 1 c)) (sbox (byte_at 0 d))) (to_be_bytes w32 key) }
{
    (SEAL_ROW_0[((a >> 24) % 256) as usize] ^ SEAL_ROW_1[((b >> 16) % 256) as usize])
        ^ (SEAL_ROW_2[((c >> 8) % 256) as usize] ^ SEAL_ROW_3[(d % 256) as usize])
        ^ key
}

/// A column of an inverse round, with its part of the round key.
fn opened_column(a: u32, b: u32, c: u32, d: u32, key: u32) -> u32
    ensures { to_be_bytes w32 result
        ≡ xor_bytes (circulant 14 11 13 9
        (unsbox (byte_at 3 a)) (unsbox (byte_at 2 b)) (unsbox (byte_at 1 c)) (unsbox (byte_at 0 d))) (to_be_bytes w32 key) }
{
    (OPEN_ROW_0[((a >> 24) % 256) as usize] ^ OPEN_ROW_1[((b >> 16) % 256) as usize])
        ^ (OPEN_ROW_2[((c >> 8) % 256) as usize] ^ OPEN_ROW_3[(d % 256) as usize])
        ^ key
}

/// A column of the last round, which mixes no columns.
fn last_sealed_column(a: u32, b: u32, c: u32, d: u32, key: u32) -> u32
    ensures { to_be_bytes w32 result
        ≡ xor_bytes (sbox (byte_at 3 a) ∷ sbox (byte_at 2 b) ∷ sbox (byte_at 1 c) ∷ sbox (byte_at 0 d) ∷ []) (to_be_bytes w32 key) }
{
    u32::from_be_bytes([
        SBOX[((a >> 24) % 256) as usize],
        SBOX[((b >> 16) % 256) as usize],
        SBOX[((c >> 8) % 256) as usize],
        SBOX[(d % 256) as usize],
    ]) ^ key
}

/// A column of the last inverse round.
fn last_opened_column(a: u32, b: u32, c: u32, d: u32, key: u32) -> u32
    ensures { to_be_bytes w32 result
        ≡ xor_bytes (unsbox (byte_at 3 a) ∷ unsbox (byte_at 2 b) ∷ unsbox (byte_at 1 c) ∷ unsbox (byte_at 0 d) ∷ []) (to_be_bytes w32 key) }
{
    u32::from_be_bytes([
        INVERSE_SBOX[((a >> 24) % 256) as usize],
        INVERSE_SBOX[((b >> 16) % 256) as usize],
        INVERSE_SBOX[((c >> 8) % 256) as usize],
        INVERSE_SBOX[(d % 256) as usize],
    ]) ^ key
}

/// A column of InvMixColumns, by the tables of the inverse S-box at the S-box.
fn unmixed_column(column: u32) -> u32
    ensures { to_be_bytes w32 result
        ≡ circulant 14 11 13 9 (byte_at 3 column) (byte_at 2 column) (byte_at 1 column) (byte_at 0 column) }
{
    (OPEN_ROW_0[SBOX[((column >> 24) % 256) as usize] as usize]
        ^ OPEN_ROW_1[SBOX[((column >> 16) % 256) as usize] as usize])
        ^ (OPEN_ROW_2[SBOX[((column >> 8) % 256) as usize] as usize]
            ^ OPEN_ROW_3[SBOX[(column % 256) as usize] as usize])
}

/// The block after one round more.
pub fn sealed_round(s: &Columns, key: &Columns) -> Columns
    ensures { block_of result
        ≡ xor_bytes (mix_columns (shift_rows (sub_bytes (block_of s.now)))) (block_of key.now) }
{
    [
        sealed_column(s[0], s[1], s[2], s[3], key[0]),
        sealed_column(s[1], s[2], s[3], s[0], key[1]),
        sealed_column(s[2], s[3], s[0], s[1], key[2]),
        sealed_column(s[3], s[0], s[1], s[2], key[3]),
    ]
}

/// The block after the last round.
pub fn last_sealed_round(s: &Columns, key: &Columns) -> Columns
    ensures { block_of result
        ≡ xor_bytes (shift_rows (sub_bytes (block_of s.now))) (block_of key.now) }
{
    [
        last_sealed_column(s[0], s[1], s[2], s[3], key[0]),
        last_sealed_column(s[1], s[2], s[3], s[0], key[1]),
        last_sealed_column(s[2], s[3], s[0], s[1], key[2]),
        last_sealed_column(s[3], s[0], s[1], s[2], key[3]),
    ]
}

/// The block after one inverse round more, whose round key has its columns unmixed too.
pub fn opened_round(s: &Columns, key: &Columns) -> Columns
    ensures { block_of result
        ≡ xor_bytes (unmix_columns (unsub_bytes (unshift_rows (block_of s.now)))) (block_of key.now) }
{
    [
        opened_column(s[0], s[3], s[2], s[1], key[0]),
        opened_column(s[1], s[0], s[3], s[2], key[1]),
        opened_column(s[2], s[1], s[0], s[3], key[2]),
        opened_column(s[3], s[2], s[1], s[0], key[3]),
    ]
}

/// The block after the last inverse round.
pub fn last_opened_round(s: &Columns, key: &Columns) -> Columns
    ensures { block_of result
        ≡ xor_bytes (unsub_bytes (unshift_rows (block_of s.now))) (block_of key.now) }
{
    [
        last_opened_column(s[0], s[3], s[2], s[1], key[0]),
        last_opened_column(s[1], s[0], s[3], s[2], key[1]),
        last_opened_column(s[2], s[1], s[0], s[3], key[2]),
        last_opened_column(s[3], s[2], s[1], s[0], key[3]),
    ]
}

/// A block with its columns unmixed.
pub fn unmixed(s: &Columns) -> Columns
    ensures { block_of result ≡ unmix_columns (block_of s.now) }
{
    [
        unmixed_column(s[0]),
        unmixed_column(s[1]),
        unmixed_column(s[2]),
        unmixed_column(s[3]),
    ]
}

/// The next round key, of FIPS 197, section 5.2.
pub fn next_key(constant: u8, key: &Columns) -> Columns
    ensures { block_of result ≡ next_round_key constant (block_of key.now) }
{
    let turned = u32::from_be_bytes([
        SBOX[((key[3] >> 16) % 256) as usize],
        SBOX[((key[3] >> 8) % 256) as usize],
        SBOX[(key[3] % 256) as usize],
        SBOX[((key[3] >> 24) % 256) as usize],
    ]);
    let first = key[0] ^ (turned ^ u32::from_be_bytes([constant, 0, 0, 0]));
    let second = key[1] ^ first;
    let third = key[2] ^ second;
    [first, second, third, key[3] ^ third]
}
