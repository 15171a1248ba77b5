// What the passes know, for the proofs alone, and the steps of the turn.
use crate::first::{First, Journaled};
use atomic_table::{Join, Play, Split, TableRule};
use ks_base::Boxed;
use ks_machine::Entry;
use std::collections::LinkedList;
use std::marker::PhantomData;

// A front without its opening. No value of it is made.
pub struct Seen {
    pub changes: LinkedList<Entry>,
    pub high: u64,
    pub kept: u64,
}

// What a pass has seen and was told of, the numbers of its changes, the greatest moment to which it raised the
// highest, its weight, and whether it holds the turn. No value of it is made.
pub struct View {
    pub seen: Seen,
    pub told: Seen,
    pub own: LinkedList<u64>,
    pub top: u64,
    pub weight: u64,
    pub holds: bool,
}

pub struct Law<N> {
    of: PhantomData<N>,
}

impl<S: Journaled, N: First> TableRule<Option<Boxed<S>>, View, ()> for Law<N> {
    ghost use Rattle.ks_turn.specs.Views.{first_view};
    ghost use Rattle.ks_turn.specs.Rule.{Turned};

    ghost holds = { λ _. Turned N.front S.stands };

    ghost first = { λ _. first_view N.front };
}

// The turn is taken, or found taken.
pub struct Take<N> {
    of: PhantomData<N>,
}

impl<S: Journaled, N: First> Play<Option<Boxed<S>>, View> for Take<N> {
    ghost use Rattle.ks_turn.specs.Rule.{tried};

    ghost then = { tried N.front S.stands };
}

// Somebody begins or ends to look for long.
pub struct Look;

impl<S: Journaled> Play<Option<Boxed<S>>, View> for Look {
    ghost use Rattle.ks_turn.specs.Rule.{looked};

    ghost then = { looked };
}

// The turn is given back.
pub struct Give<N> {
    of: PhantomData<N>,
}

impl<S: Journaled, N: First> Play<Option<Boxed<S>>, View> for Give<N> {
    ghost use Rattle.ks_turn.specs.Rule.{gave};

    ghost then = { gave N.front S.stands };
}

pub struct Cut;

impl Split<View> for Cut {
    ghost use Rattle.ks_turn.specs.Views.{cut_off, left_over};

    ghost left = { left_over };

    ghost right = { cut_off };
}

pub struct Meet<N> {
    of: PhantomData<N>,
}

impl<N: First> Join<View> for Meet<N> {
    ghost use Rattle.ks_turn.specs.Views.{met, spent};

    ghost both = { met };

    ghost spent = { spent N.front };
}
