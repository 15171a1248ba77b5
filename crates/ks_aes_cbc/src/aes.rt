//! AES-128.
ghost use Rattle.std.specs.Prelude.{◌≡◌, ℕ, List};
ghost use Rattle.ks_aes_cbc.specs.Aes.{IsBlock, aes};
ghost use Rattle.ks_aes_cbc.specs.Columns.{block_of};

use crate::columns::{Columns, bytes, columns, summed};
use crate::keys::{opening_keys, sealing_keys};
use crate::rounds::{last_opened_round, last_sealed_round, opened_round, sealed_round};
use std::marker::Model;

/// The rounds that mix columns: all ten but the last.
const MIXING_ROUNDS: usize = 9;

/// A key of AES-128, ready to seal and open blocks (FIPS 197). Contracts see it as the key's 16 bytes.
#[derive(Drop)]
pub struct Aes128 {
    key: [u8; 16],
    sealing: [Columns; 11],
    opening: [Columns; 9],
}

impl Model for Aes128 {
    ghost use Rattle.std.specs.Prelude.{ℕ, List};
    ghost use Rattle.ks_aes_cbc.specs.Keys.{AreRoundKeys};

    ghost Value = { List ℕ };

    ghost view = { λ a. a.key };

    ghost invariant = { λ a. AreRoundKeys a.key a.sealing a.opening };
}

impl Aes128 {
    /// Makes the round keys of a key of 16 bytes.
    pub fn new(key: &[u8; 16]) -> Aes128
        ensures { result ≡ key.now }
    {
        let sealing = sealing_keys(key);
        let opening = opening_keys(&sealing);
        Aes128 {
            key: *key,
            sealing,
            opening,
        }
    }

    /// Its key is a block. The call does nothing: its contract is the law.
    pub(crate) fn has_block_key(&self)
        ensures { IsBlock self.now }
    {
        let _key = &self.key;
    }

    /// The block as AES seals it: the cipher of FIPS 197, section 5.1.
    pub fn seal_block(&self, block: &[u8; 16]) -> [u8; 16]
        ensures { result ≡ aes self.now block.now }
    {
        bytes(&self.seal_columns(&columns(block)))
    }

    /// The one block that [`Aes128::seal_block`] makes this one of: the inverse cipher of FIPS 197,
    /// section 5.3.
    pub fn open_block(&self, block: &[u8; 16]) -> [u8; 16]
        ensures sealed { aes self.now result ≡ block.now }
        ensures only { (p : List ℕ) → IsBlock p → aes self.now p ≡ block.now → result ≡ p }
    {
        bytes(&self.open_columns(&columns(block)))
    }

    /// [`Aes128::seal_block`] on columns.
    #[inline(never)]
    pub(crate) fn seal_columns(&self, block: &Columns) -> Columns
        ensures { block_of result ≡ aes self.now (block_of block.now) }
    {
        let mut state = summed(block, &self.sealing[0]);
        for i in 0..MIXING_ROUNDS {
            state = sealed_round(&state, &self.sealing[i + 1]);
        }
        last_sealed_round(&state, &self.sealing[10])
    }

    /// [`Aes128::open_block`] on columns.
    #[inline(never)]
    pub(crate) fn open_columns(&self, block: &Columns) -> Columns
        ensures sealed { aes self.now (block_of result) ≡ block_of block.now }
        ensures only { (p : List ℕ) → IsBlock p → aes self.now p ≡ block_of block.now → block_of result ≡ p }
    {
        let mut state = summed(block, &self.sealing[10]);
        for i in 0..MIXING_ROUNDS {
            state = opened_round(&state, &self.opening[i]);
        }
        last_opened_round(&state, &self.sealing[0])
    }
}
