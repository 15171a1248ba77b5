//! Blocks as four words of 32 bits, a column each, whose highest byte stands in row 0.
ghost use Rattle.std.specs.Prelude.{◌≡◌, ◌++◌, OnOk};
ghost use Rattle.std.specs.Int.{w32, to_be_bytes};
ghost use Rattle.ks_aes_cbc.specs.Aes.{xor_bytes};
ghost use Rattle.ks_aes_cbc.specs.Columns.{block_of};

use std::alloc::AllocError;

/// The columns of a block.
pub type Columns = [u32; 4];

/// The columns of a block's bytes.
pub fn columns(block: &[u8; 16]) -> Columns
    ensures { block_of result ≡ block.now }
{
    [
        u32::from_be_bytes([block[0], block[1], block[2], block[3]]),
        u32::from_be_bytes([block[4], block[5], block[6], block[7]]),
        u32::from_be_bytes([block[8], block[9], block[10], block[11]]),
        u32::from_be_bytes([block[12], block[13], block[14], block[15]]),
    ]
}

/// The bytes of a block's columns.
#[tactic(auto, unfolding(crate::specs::Columns::block_of))]
pub fn bytes(columns: &Columns) -> [u8; 16]
    ensures { result ≡ block_of columns.now }
{
    let [a0, a1, a2, a3] = columns[0].to_be_bytes();
    let [b0, b1, b2, b3] = columns[1].to_be_bytes();
    let [c0, c1, c2, c3] = columns[2].to_be_bytes();
    let [d0, d1, d2, d3] = columns[3].to_be_bytes();
    [
        a0, a1, a2, a3, b0, b1, b2, b3, c0, c1, c2, c3, d0, d1, d2, d3,
    ]
}

/// Puts a block's bytes behind others. The one error is want of memory.
pub fn append(out: &mut Vec<u8>, block: &Columns) -> Result<(), AllocError>
    ensures { OnOk result (out.new.items ≡ out.old.items ++ block_of block.now) }
{
    out.extend_from_slice(&block[0].to_be_bytes())?;
    out.extend_from_slice(&block[1].to_be_bytes())?;
    out.extend_from_slice(&block[2].to_be_bytes())?;
    out.extend_from_slice(&block[3].to_be_bytes())?;
    Ok(())
}

/// The sum of two blocks.
#[tactic(auto, using(crate::proofs::RoundLemmas::summed_columns))]
pub fn summed(a: &Columns, b: &Columns) -> Columns
    ensures { block_of result ≡ xor_bytes (block_of a.now) (block_of b.now) }
{
    [a[0] ^ b[0], a[1] ^ b[1], a[2] ^ b[2], a[3] ^ b[3]]
}
