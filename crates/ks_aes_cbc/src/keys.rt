//! The key schedule, on words.
ghost use Rattle.std.specs.Prelude.{◌≡◌, ℕ, ◌-◌, ◌<◌, []};
ghost use Rattle.std.specs.List.{slice_index_or};
ghost use Rattle.ks_aes_cbc.specs.Aes.{round_key};
ghost use Rattle.ks_aes_cbc.specs.Inverse.{unmix_columns};
ghost use Rattle.ks_aes_cbc.specs.Columns.{block_of};

use crate::columns::{Columns, columns};
use crate::rounds::{next_key, unmixed};
use crate::tables::ROUND_CONSTANTS;

/// The key and the ten round keys made of it.
pub fn sealing_keys(key: &[u8; 16]) -> [Columns; 11]
    ensures { (n : ℕ) → n < 11 → block_of (slice_index_or result n []) ≡ round_key key.now n }
{
    let mut keys = [columns(key); 11];
    for i in 0..10 {
        let next = next_key(ROUND_CONSTANTS[i], &keys[i]);
        keys[i + 1] = next;
    }
    keys
}

/// The round keys of the inverse rounds that mix columns, in their order, with their columns unmixed: so a
/// round adds its key after the columns are unmixed (FIPS 197, section 5.3.5).
pub fn opening_keys(sealing: &[Columns; 11]) -> [Columns; 9]
    ensures { (n : ℕ) → n < 9 → block_of (slice_index_or result n [])
        ≡ unmix_columns (block_of (slice_index_or sealing.now (9 - n) [])) }
{
    let mut keys = [[0; 4]; 9];
    for i in 0..9 {
        keys[i] = unmixed(&sealing[9 - i]);
    }
    keys
}
