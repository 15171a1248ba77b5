ghost use Rattle.std.specs.Prelude.{◌≡◌, []};
ghost use Rattle.ks_keep.specs.Books.{IsBookOf, StandsSince, seen_by};
ghost use Rattle.ks_machine.specs.Fronts.{Front};
ghost use Rattle.ks_state.specs.Standing.{StandsWithAllKept};

use crate::Since;
use ks_base::Bytes;
use ks_keeper::Keeper;
use ks_state::Identity;
use std::alloc::Global;
use std::collections::VecDeque;
use std::marker::{Brand, Model, PhantomData};

/// An identity with the keeper of its changes. A change is pending from when it is made until the keeper has it, and of
/// the pending changes only the newest may lack its spelling.
#[derive(Drop)]
pub struct Booked<K: Keeper, N: Since> {
    pub(crate) alloc: Global,
    pub(crate) identity: Identity,
    pub(crate) keeper: K,
    pub(crate) pending: VecDeque<Bytes>,
    pub(crate) kept: u64,
    of: PhantomData<N>,
}

impl<K: Keeper, N: Since> Model for Booked<K, N> {
    ghost use Rattle.std.specs.Prelude.{◌+◌, ◌≤◌, length};
    ghost use Rattle.std.specs.Coded.{codes};
    ghost use Rattle.ks_rule.specs.TreeCodes.{tree_code};
    ghost use Rattle.ks_keep.specs.Books.{BookedState};

    ghost Value = { BookedState K };

    ghost coded = { Prim.hlevel (codes, tree_code, K.code) };

    ghost view = { λ b. record { shown = b.identity; keeper = b.keeper; pending = b.pending.items; kept = b.kept } };

    ghost invariant = { λ b. (b.kept + length b.pending.items ≤ b.identity.state.made) × (b.identity.state.made ≤ b.kept + length b.pending.items + 1) };
}

impl<K: Keeper, N: Since> Booked<K, N> {
    /// The identity with its keeper, which has all of its changes. Takes no memory.
    pub fn new(alloc: Global, identity: Identity, keeper: K) -> Booked<K, N>
        requires stands { (f : Front) × StandsWithAllKept identity f × (K.whole keeper → IsBookOf (K.kept keeper) f) }
        requires since { K.whole keeper → N.holds }
        ensures is { result ≡ record { shown = identity; keeper = keeper; pending = []; kept = identity.state.made } }
        ensures stands { (f : Front) → StandsWithAllKept identity f → (K.whole keeper → IsBookOf (K.kept keeper) f) → StandsSince (seen_by K.kept K.whole K.faults) N.holds result f }
    {
        let (kept, _moment) = identity.front();
        Booked {
            alloc,
            identity,
            keeper,
            pending: VecDeque::new(alloc),
            kept,
            of: PhantomData,
        }
    }

    /// The same, of which nothing more is known.
    pub fn unnamed(self) -> Booked<K, Brand>
        ensures { result ≡ self }
    {
        let Booked {
            alloc,
            identity,
            keeper,
            pending,
            kept,
            of: _,
        } = self;
        Booked {
            alloc,
            identity,
            keeper,
            pending,
            kept,
            of: PhantomData,
        }
    }

    /// The identity and the keeper. What is pending is let go.
    pub fn into_parts(self) -> (Identity, K)
        ensures identity { result.0 ≡ self.shown }
        ensures keeper { result.1 ≡ self.keeper }
    {
        let Booked {
            alloc: _,
            identity,
            keeper,
            pending: _,
            kept: _,
            of: _,
        } = self;
        (identity, keeper)
    }
}
