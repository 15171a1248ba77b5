ghost use Rattle.std.specs.Prelude.{◌≡◌, length};
ghost use Rattle.ks_machine.specs.Fronts.{IsSound};

use crate::first::First;
use crate::view::View;
use atomic_table::Badge;
use std::marker::{Model, PhantomData};

/// The right to call a turn, and all that its owner has seen.
#[derive(Drop)]
pub struct Pass<N: First> {
    pub(crate) changes: u64,
    pub(crate) moment: u64,
    pub(crate) badge: Badge<View>,
    pub(crate) of: PhantomData<N>,
}

impl<N: First> Model for Pass<N> {
    ghost use Rattle.std.specs.Coded.{codes};
    ghost use Rattle.ks_rule.specs.TreeCodes.{tree_code};
    ghost use Rattle.ks_turn.specs.Passes.{IsPass, Passed, passed, view_of};

    ghost Value = { Passed };

    ghost coded = { Prim.hlevel (codes, tree_code) };

    ghost view = { λ p. passed N.front p.badge.table_id (view_of N.front p.badge.views) };

    ghost invariant = { λ p. IsPass N.front p.changes p.moment p.badge.views };
}

/// There was no memory to split a pass. It comes back.
#[derive(Drop)]
pub struct NoSplit<N: First> {
    pub pass: Pass<N>,
}

impl<N: First> Pass<N> {
    /// The number of changes and the highest moment of all that the owner has seen.
    pub fn front(&self) -> (u64, u64)
        ensures count { result.0 ≡ length self.now.seen.changes }
        ensures high { result.1 ≡ self.now.seen.high }
        ensures sound { IsSound self.now.seen }
    {
        (self.changes, self.moment)
    }
}
