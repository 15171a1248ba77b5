//! Rows with names, those of a domain, and the tests by which both are looked for and kept.
ghost use Rattle.std.specs.Prelude.{◌≡◌, ◌&&◌, not, ℕ, List};
ghost use Rattle.ks_base.specs.Rows.{same};

use crate::{Id, Row, Test, Text};

/// A row with a name, which is told apart from the same name elsewhere by the row's home.
pub trait Named: Row {
    ghost naming: { Self → List ℕ };

    ghost within: { Self → List ℕ };

    /// The row's name.
    fn name(&self) -> &Text
        ensures { result.now ≡ naming self.now };

    /// The bytes of the id of the domain or of the user whose it is; none, where it is nobody's.
    fn home(&self) -> &[u8]
        ensures { result.now ≡ within self.now };
}

/// A row of a domain.
pub trait Homed: Row {
    ghost home: { Self → List ℕ };

    /// The row's domain.
    fn domain(&self) -> &Id
        ensures { result.now ≡ home self.now };
}

/// Rows of this domain.
#[derive(Drop)]
pub struct InDomain<'a> {
    pub domain: &'a Id,
}

impl<R: Homed> Test<R> for InDomain<'_> {
    ghost test = { λ wanted row. same (R.home row) wanted.domain.now };

    fn test(&self, row: &R) -> bool {
        *row.domain() == *self.domain
    }
}

/// Rows outside this domain.
#[derive(Drop)]
pub struct Outside<'a> {
    pub domain: &'a Id,
}

impl<R: Homed> Test<R> for Outside<'_> {
    ghost test = { λ wanted row. not (same (R.home row) wanted.domain.now) };

    fn test(&self, row: &R) -> bool {
        *row.domain() != *self.domain
    }
}
