ghost use Rattle.std.specs.Prelude.{◌≡◌, Bool, List, ℕ};

use crate::Id;

/// A row with an id.
pub trait Row: Drop {
    ghost key: { Self → List ℕ };

    /// The row's id.
    fn id(&self) -> &Id
        ensures { result.now ≡ key self.now };
}

/// A test of rows.
pub trait Test<R> {
    ghost test: { Self → R → Bool };

    /// Whether the row passes.
    fn test(&self, row: &R) -> bool
        ensures { result ≡ test self.now row.now };
}
