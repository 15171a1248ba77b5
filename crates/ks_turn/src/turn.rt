ghost use Rattle.std.specs.Prelude.{◌≡◌, ◌≢◌, ℕ, ◌≤◌, ◌<◌, false, true, [], ◌∷◌, length, Ok, Some, IfOk, IfErr};
ghost use Rattle.ks_machine.specs.Fronts.{Front, IsSound, ◌⊑◌};
ghost use Rattle.std.specs.Borrow.{Lends, sem};
ghost use Rattle.ks_turn.specs.Passes.{Ends, IsPass, Lands, Met, Took, first_pass, keeping, passed, released, splitting};
ghost use Rattle.ks_turn.specs.Rule.{Told};
ghost use Rattle.ks_turn.specs.Views.{front_at, given};

use crate::first::{First, Journaled};
use crate::pass::{NoSplit, Pass};
use crate::view::{Cut, Give, Law, Look, Meet, Take, View};
use atomic_table::{Refused, Seat, Table};
use ks_base::Boxed;
use std::alloc::{AllocFailed, Global};
use std::marker::{Model, PhantomData};
use std::sync::Wait;

// The word that tells whether one of those that wait looks for long. It says nothing about the turn.
const LOOKER: usize = 0;
// The word that tells whether the turn is taken.
const TURN: usize = 1;

const FREE: u64 = 0;

const HELD: u64 = 1;
// It is held, and somebody may sleep until it is given back.
const WAITED_FOR: u64 = 2;

// How often a caller looks whether the turn is free before it sleeps. A look is one load, and so many take about as long as
// falling asleep and being woken do, which is longer than most holds.
const LOOKS: u32 = 20_000;
// How often one of those that wait looks, and it alone: for about as long as a disk takes to keep a change, so that the turn
// goes on without a sleeper to be woken first. If all looked for so long, they would take the processors from those that work.
const LONG_LOOKS: u32 = 150_000;

/// A value that many callers use, one at a time. It stands behind a pointer, so that a hold moves no more than that.
#[derive(Drop)]
pub struct Turn<S: Journaled, N: First> {
    table: Table<Option<Boxed<S>>, View, (), Law<N>, Global>,
}

impl<S: Journaled, N: First> Model for Turn<S, N> {
    ghost use Rattle.std.specs.Prelude.{◌≡◌};
    ghost use Rattle.atomic_table.specs.Seated.{TableId, table_id_coded};

    ghost Value = { TableId };

    ghost coded = { table_id_coded };

    ghost view = { λ t. t.table.shared.table_id };

    ghost invariant = { λ t. (t.table.shared.table_id.words ≡ 2) × (t.table.shared.table_id.slots ≡ 1) };
}

/// The turn, taken, with its value.
pub struct Held<S: Journaled, N: First> {
    seat: Seat<Option<Boxed<S>>, View>,
    value: Boxed<S>,
    of: PhantomData<N>,
}

impl<S: Journaled, N: First> Model for Held<S, N> {
    ghost use Rattle.std.specs.Prelude.{◌≡◌, None, true, [], ◌∷◌, ◌<◌};
    ghost use Rattle.std.specs.Coded.{codes};
    ghost use Rattle.ks_rule.specs.TreeCodes.{tree_code};
    ghost use Rattle.ks_turn.specs.Passes.{Holding, passed};

    ghost Value = { Holding S };

    ghost coded = { Prim.hlevel (codes, tree_code, S.code) };

    ghost view = { λ h. record { pass = passed N.front h.seat.table_id h.seat.me.0; value = h.value } };

    ghost invariant = { λ h. (h.seat.me.1 ≡ (0, None) ∷ []) × (h.seat.me.0.holds ≡ true) × (0 < h.seat.me.0.weight) };
}

/// There was no memory for a turn. The state comes back.
#[derive(Drop)]
pub struct NoRoom<S> {
    pub state: S,
}

// The one slot of a table, with the state behind a pointer.
fn one_slot<S>(alloc: Global, state: S) -> Result<Vec<Option<Boxed<S>>>, NoRoom<S>>
    ensures ok { IfOk result (λ slots. slots.items ≡ Some state ∷ []) }
    ensures back { IfErr result (λ e. e.state ≡ state) }
{
    let mut slots = Vec::new(alloc);
    if slots.reserve(1).is_err() {
        slots.destroy_empty();
        return Err(NoRoom { state });
    }
    match Box::new(alloc, state) {
        Ok(held) => {
            slots.push_reserved(Some(Boxed::from(held)));
            Ok(slots)
        }
        Err(AllocFailed { value }) => {
            slots.destroy_empty();
            Err(NoRoom { state: value })
        }
    }
}

impl<S: Journaled, N: First> Turn<S, N> {
    /// Puts the state into a new turn. The first pass has seen the front of `N` and has all the weight.
    pub fn new(alloc: Global, state: S) -> Result<(Turn<S, N>, Pass<N>), NoRoom<S>>
        requires { S.stands state N.front }
        ensures made { IfOk result (λ t. t.1 ≡ first_pass t.0 N.front) }
        ensures back { IfErr result (λ e. e.state ≡ state) }
    {
        let (changes, moment) = state.front();
        let slots = one_slot(alloc, state)?;
        match Table::new(alloc, &[FREE, FREE], slots, &()) {
            Ok((table, seat)) => {
                let pass = Pass {
                    changes,
                    moment,
                    badge: seat.into_badge(),
                    of: PhantomData,
                };
                Ok((Turn { table }, pass))
            }
            Err(Refused { mut slots }) => {
                let Some(Some(state)) = slots.pop() else {
                    unreachable!()
                };
                slots.destroy_empty();
                Err(NoRoom {
                    state: state.into_inner(),
                })
            }
        }
    }

    /// Splits a pass of weight 2 or more. Takes no memory, so it never fails.
    pub fn split(&self, pass: Pass<N>) -> Result<(Pass<N>, Pass<N>), NoSplit<N>>
        requires own { pass.turn ≡ self.now }
        requires weight { 2 ≤ pass.weight }
        ensures { result ≡ Ok (keeping pass, splitting pass) }
    {
        let Pass {
            changes,
            moment,
            badge,
            of,
        } = pass;
        let mut seat = badge.into_seat();
        let second = self.table.shared.split_seat::<Cut>(&mut seat);
        let keeping = Pass {
            changes,
            moment,
            badge: seat.into_badge(),
            of,
        };
        let splitting = Pass {
            changes,
            moment,
            badge: second.into_badge(),
            of: PhantomData,
        };
        Ok((keeping, splitting))
    }

    // Takes the turn where it is given back within so many looks, and leaves this in its word.
    fn seize_within(&self, seat: &mut Seat<Option<Boxed<S>>, View>, looks: u32, taken: u64) -> bool
        requires own { seat.old.table_id ≡ self.now }
        requires free { seat.old.me.1 ≡ [] }
        requires can { (0 < seat.old.me.0.weight) × (seat.old.me.0.holds ≡ false) }
        requires taken { taken ≢ 0 }
        ensures own { seat.new.table_id ≡ seat.old.table_id }
        ensures took { result ≡ true → (x : S) × (seat.new.me.1 ≡ (0, Some x) ∷ []) × Told N.front S.stands seat.old.me.0 seat.new.me.0 x }
        ensures missed { result ≡ false → seat.new.me ≡ seat.old.me }
    {
        for _ in 0..looks {
            if self.table.shared.peek(TURN) == FREE
                && self
                    .table
                    .shared
                    .compare_exchange::<Take<N>>(seat, TURN, FREE, taken)
                    == FREE
            {
                return true;
            }
        }
        false
    }

    // Takes the turn where it is given back soon. Of all that wait, the first looks longest.
    fn seize_soon(&self, seat: &mut Seat<Option<Boxed<S>>, View>, taken: u64) -> bool
        requires own { seat.old.table_id ≡ self.now }
        requires free { seat.old.me.1 ≡ [] }
        requires can { (0 < seat.old.me.0.weight) × (seat.old.me.0.holds ≡ false) }
        requires taken { taken ≢ 0 }
        ensures own { seat.new.table_id ≡ seat.old.table_id }
        ensures took { result ≡ true → (x : S) × (seat.new.me.1 ≡ (0, Some x) ∷ []) × Told N.front S.stands seat.old.me.0 seat.new.me.0 x }
        ensures missed { result ≡ false → seat.new.me ≡ seat.old.me }
    {
        if self.seize_within(seat, LOOKS, taken) {
            return true;
        }
        if self.table.shared.swap::<Look>(seat, LOOKER, HELD) != FREE {
            return false;
        }
        let seized = self.seize_within(seat, LONG_LOOKS, taken);
        self.table.shared.swap::<Look>(seat, LOOKER, FREE);
        seized
    }

    // Takes the turn. A caller that finds it taken for long sleeps until it is given back. Since others may sleep as well, who
    // slept leaves word that somebody waits.
    fn seize<R: Wait>(&self, rt: &R, seat: &mut Seat<Option<Boxed<S>>, View>)
        requires own { seat.old.table_id ≡ self.now }
        requires free { seat.old.me.1 ≡ [] }
        requires can { (0 < seat.old.me.0.weight) × (seat.old.me.0.holds ≡ false) }
        ensures own { seat.new.table_id ≡ seat.old.table_id }
        ensures took { (x : S) × (seat.new.me.1 ≡ (0, Some x) ∷ []) × Told N.front S.stands seat.old.me.0 seat.new.me.0 x }
    {
        if self.seize_soon(seat, HELD) {
            return;
        }
        for _ in rt.forever() {
            if self.table.shared.swap::<Take<N>>(seat, TURN, WAITED_FOR) == FREE {
                return;
            }
            self.table.shared.park(rt, TURN, WAITED_FOR as u32);
            if self.seize_soon(seat, WAITED_FOR) {
                return;
            }
        }
        unreachable!()
    }

    // Takes the turn and the value.
    fn take<R: Wait>(&self, rt: &R, seat: &mut Seat<Option<Boxed<S>>, View>) -> Boxed<S>
        requires own { seat.old.table_id ≡ self.now }
        requires free { seat.old.me.1 ≡ [] }
        requires can { (0 < seat.old.me.0.weight) × (seat.old.me.0.holds ≡ false) }
        ensures own { seat.new.table_id ≡ seat.old.table_id }
        ensures lifted { seat.new.me.1 ≡ (0, None) ∷ [] }
        ensures took { Told N.front S.stands seat.old.me.0 seat.new.me.0 result }
    {
        self.seize(rt, seat);
        let taken = self.table.shared.exchange(seat, 0, None);
        let Some(value) = taken else { unreachable!() };
        value
    }

    // Gives the value and the turn back.
    fn put(&self, seat: &mut Seat<Option<Boxed<S>>, View>, value: Boxed<S>)
        requires own { seat.old.table_id ≡ self.now }
        requires held { (seat.old.me.1 ≡ (0, None) ∷ []) × (seat.old.me.0.holds ≡ true) × (0 < seat.old.me.0.weight) }
        requires lands { (f : Front) × IsSound f × Lands S.stands value (front_at N.front seat.old.me.0.seen) f }
        ensures own { seat.new.table_id ≡ seat.old.table_id }
        ensures gave { (f : Front) → front_at N.front seat.old.me.0.seen ⊑ f → S.stands value f → seat.new.me ≡ (given f seat.old.me.0, []) }
    {
        let taken = self.table.shared.exchange(seat, 0, Some(value));
        let None = taken else { unreachable!() };
        if self.table.shared.swap::<Give<N>>(seat, TURN, FREE) == WAITED_FOR {
            self.table.shared.wake_one(TURN);
        }
    }

    // Lets a seat see all that happened.
    fn renew<R: Wait>(&self, rt: &R, mut seat: Seat<Option<Boxed<S>>, View>) -> Pass<N>
        requires own { seat.table_id ≡ self.now }
        requires free { seat.me.1 ≡ [] }
        requires can { (0 < seat.me.0.weight) × (seat.me.0.holds ≡ false) }
        ensures { (w : View) × (x : S) × Told N.front S.stands seat.me.0 w x × (result ≡ passed N.front seat.table_id (given (front_at N.front w.seen) w)) }
    {
        let value = self.take(rt, &mut seat);
        let (changes, moment) = value.get().front();
        self.put(&mut seat, value);
        Pass {
            changes,
            moment,
            badge: seat.into_badge(),
            of: PhantomData,
        }
    }

    /// Takes the turn, as soon as nobody holds it.
    pub fn hold<R: Wait>(&self, rt: &R, pass: Pass<N>) -> Held<S, N>
        requires { pass.turn ≡ self.now }
        ensures { Took N.front S.stands pass result.pass result.value }
    {
        let Pass {
            changes: _,
            moment: _,
            badge,
            of,
        } = pass;
        let mut seat = badge.into_seat();
        let value = self.take(rt, &mut seat);
        Held { seat, value, of }
    }

    /// Gives the turn back with its value, which stands for one front alone of those that go on from what was held.
    pub fn release(&self, held: Held<S, N>) -> Pass<N>
        requires own { held.pass.turn ≡ self.now }
        requires lands { (f : Front) × Lands S.stands held.value held.pass.seen f }
        ensures { (f : Front) → held.pass.seen ⊑ f → S.stands held.value f → result ≡ released held.pass f }
    {
        let Held {
            mut seat,
            value,
            of,
        } = held;
        let (changes, moment) = value.get().front();
        self.put(&mut seat, value);
        Pass {
            changes,
            moment,
            badge: seat.into_badge(),
            of,
        }
    }

    /// Makes one pass of two, once nobody holds the turn. It has seen all that happened.
    pub fn meet<R: Wait>(&self, rt: &R, first: Pass<N>, second: Pass<N>) -> Pass<N>
        requires own { (first.turn ≡ self.now) × (second.turn ≡ self.now) }
        ensures { Met N.front first second result }
    {
        let Pass {
            changes: _,
            moment: _,
            badge,
            of: _,
        } = first;
        let mut seat = badge.into_seat();
        let Pass {
            changes: _,
            moment: _,
            badge,
            of: _,
        } = second;
        self.table
            .shared
            .join_seat::<Meet<N>>(&mut seat, badge.into_seat());
        self.renew(rt, seat)
    }

    /// Ends the turn, for the only pass.
    pub fn close(self, pass: Pass<N>) -> S
        requires own { pass.turn ≡ self }
        requires weight { pass.weight ≡ 1000000 }
        ensures stands { S.stands result pass.seen }
        ensures ends { Ends N.front pass }
    {
        let Turn { table } = self;
        let Pass {
            changes: _,
            moment: _,
            badge,
            of: _,
        } = pass;
        let mut closed = table.close_with(badge.into_seat());
        let left = closed.take(0);
        closed.free();
        let Some(value) = left else { unreachable!() };
        value.into_inner()
    }
}

impl<S: Journaled, N: First> Held<S, N> {
    ghost use Rattle.ks_turn.specs.contracts.turn.Held.{the_row};
    ghost use Rattle.ks_turn.specs.Passes.{with_value};

    /// The value, which may be changed until the turn is given back.
    pub fn value(&mut self) -> &mut S
        ensures* writes_back { sem 𝓛 (Lends (the_row S.row N.row S.Journaled N.First) S.row self.entry result (with_value self.old)) }
        ensures shows { result.now ≡ self.old.value }
    {
        self.value.get_mut()
    }
}
