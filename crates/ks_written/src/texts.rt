ghost use Rattle.std.specs.Prelude.{◌≡◌, IfOk, string_bytes};
ghost use Rattle.std.specs.List.{flat_map};

use ks_base::Memory;
use std::alloc::Global;

/// The texts, one behind the other.
pub fn joined(alloc: Global, parts: &[&str]) -> Result<String, Memory>
    ensures { IfOk result (λ made. string_bytes made ≡ flat_map (λ part. part.now) parts.now) }
{
    let made = parts.concat(alloc)?;
    Ok(made)
}
