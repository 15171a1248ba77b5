ghost use Rattle.std.specs.Prelude.{◌≡◌, ℕ, List, length};
ghost use Rattle.std.specs.List.Sorted.{IsSearchInRange};
ghost use Rattle.ks_base.specs.Places.{IsPlace};
ghost use Rattle.ks_base.specs.Tables.{id_cmp, IsAscending};

use ks_base::Text;

/// A row with a name.
pub trait HasName {
    ghost use Rattle.std.specs.Prelude.{ℕ, List};

    ghost naming: { Self → List ℕ };

    /// The row's name.
    fn name(&self) -> &Text
        ensures { result.now ≡ naming self.now };
}

/// The place of the row with this name, or the one where it belongs.
pub fn place<R: HasName>(rows: &[R], name: &[u8]) -> Result<usize, usize>
    requires { IsAscending id_cmp R.naming rows.now }
    ensures bound { IsSearchInRange result (length rows.now) }
    ensures place { IsPlace id_cmp R.naming name.now rows.now result }
{
    rows.binary_search_by(|row| row.name().as_slice().cmp(name))
}
