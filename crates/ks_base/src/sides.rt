//! Rows as they are seen from another side.
ghost use Rattle.std.specs.Prelude.{◌≡◌};
ghost use Rattle.std.specs.declared.cmp.Ordering.TheVariants.{Less, Equal};

use crate::{Near, Ordered};

/// A row as it is seen from its other side, by which it has its second order.
pub trait Side<A: Ordered>: Ordered {
    ghost seen: { A → Self };

    ghost row_of: { Self → A };

    /// The row, seen from this side.
    fn of(row: &A) -> Self
        ensures { result ≡ seen row.now };

    /// The row.
    fn row(&self) -> &A
        ensures { result.now ≡ row_of self.now };

    ghost returns: { (row : A) → row_of (seen row) ≡ row };

    ghost again: { (side : Self) → seen (row_of side) ≡ side };
}

/// What sides have in common that stand side by side in the second order, and there in the first order of their rows.
pub trait Far<A: Ordered, B: Side<A>>: Near<B> {
    ghost within: { (far : Self) (a b : B) → Self.side far a ≡ Equal → Self.side far b ≡ Equal → B.Ordered.cmp a b ≡ Less → A.Ordered.cmp (B.Side.row_of a) (B.Side.row_of b) ≡ Less };
}
