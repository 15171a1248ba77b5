//! By what trusts are found without a look at all others.
ghost use Rattle.std.specs.Prelude.{◌≡◌, ◌≤◌, fold, length, not, OnErr, OnOk};
ghost use Rattle.std.specs.List.{AllByRecursion, insert};
ghost use Rattle.ks_base.specs.Places.{IsGapAt};
ghost use Rattle.ks_base.specs.Rows.{has_id};
ghost use Rattle.ks_base.specs.Tables.{id_cmp, Among, IsAscending, drop_row};
ghost use Rattle.ks_trust.specs.State.{ids_ascend-prop, without_trusts};
ghost use Rattle.ks_trust.specs.Sides.{last_reference, side_cmp, sides_of, reference_cmp, reference_id, reference_rank, AreGrown, AreSides};

use ks_base::by_id::place;
use ks_base::{Boxed, Id, Memory, Near, Ordered, RowSet, Test, TrustRow, has_id};
use std::cmp::Ordering;

/// What a trust names.
#[derive(Clone, Copy)]
pub(crate) enum Reference {
    /// Its trustor or its trustee.
    User(Id),
    Project(Id),
    /// The trust that it passes on.
    Parent(Id),
}

/// That a trust names something.
#[derive(Clone, Copy)]
pub(crate) struct TrustSide {
    pub(crate) what: Reference,
    pub(crate) trust: Id,
}

impl Reference {
    fn rank(&self) -> u8
        ensures { result ≡ reference_rank self.now }
    {
        match self {
            Reference::User(_) => 0,
            Reference::Project(_) => 1,
            Reference::Parent(_) => 2,
        }
    }

    fn id(&self) -> &Id
        ensures { result.now ≡ reference_id self.now }
    {
        match self {
            Reference::User(id) | Reference::Project(id) | Reference::Parent(id) => id,
        }
    }

    fn compare(&self, other: &Reference) -> Ordering
        ensures { result ≡ reference_cmp self.now other.now }
    {
        self.rank()
            .cmp(&other.rank())
            .then(self.id().cmp(other.id()))
    }
}

impl Ordered for TrustSide {
    ghost use Rattle.ks_trust.specs.Sides.{side_cmp, side_total, side_exact};

    ghost cmp = { side_cmp };

    ghost total = { side_total };

    ghost exact = { side_exact };

    fn compare(&self, other: &TrustSide) -> Ordering {
        self.what
            .compare(&other.what)
            .then(self.trust.cmp(&other.trust))
    }
}

impl Near<TrustSide> for Reference {
    ghost use Rattle.ks_trust.specs.Sides.{reference_cmp, reference_run};

    ghost side = { λ what side. reference_cmp side.what what };

    ghost run = { reference_run };

    fn side(&self, side: &TrustSide) -> Ordering {
        side.what.compare(self)
    }
}

/// What trusts name whose ids are none of these.
#[derive(Drop)]
pub(crate) struct Unlisted<'a> {
    pub(crate) ids: &'a [Id],
    ghost ascending: { IsAscending id_cmp (λ id. id) ids.now } by { ids_ascend-prop ids.now },
}

impl Test<TrustSide> for Unlisted<'_> {
    ghost test = { λ wanted side. not (has_id wanted.ids.now side.trust) };

    fn test(&self, side: &TrustSide) -> bool {
        !has_id(self.ids, &side.trust)
    }
}

/// The trust that this one passes on, or its project again, where it passes none on.
fn last_reference(row: &TrustRow) -> Reference
    ensures { result ≡ last_reference row.now.project row.now.parent }
{
    match row.parent {
        Some(parent) => Reference::Parent(parent),
        None => Reference::Project(row.project),
    }
}

/// What the trust names.
fn sides_of(row: &TrustRow) -> [TrustSide; 4]
    ensures { result ≡ sides_of row.now }
{
    let trust = row.id;
    [
        TrustSide {
            what: Reference::User(row.trustor),
            trust,
        },
        TrustSide {
            what: Reference::User(row.trustee),
            trust,
        },
        TrustSide {
            what: Reference::Project(row.project),
            trust,
        },
        TrustSide {
            what: last_reference(row),
            trust,
        },
    ]
}

/// Puts these into the index. Where memory ends, those before stay.
fn put_each(index: &mut RowSet<TrustSide>, sides: &[TrustSide]) -> Result<(), Memory>
    ensures grown { AreGrown sides.now index.old index.new }
    ensures all { OnOk result (AllByRecursion (Among index.new) sides.now) }
{
    for side in sides {
        index.add(*side)?;
    }
    Ok(())
}

/// Takes these out of the index.
fn drop_each(index: &mut RowSet<TrustSide>, sides: &[TrustSide])
    ensures { index.new ≡ fold (λ left side. drop_row side_cmp (λ next. next) side left) index.old sides.now }
{
    for side in sides {
        index.remove(side);
    }
}

/// Puts a new trust in its place, and before it what it names into the index, of which some stays where memory ends.
fn put_both(
    rows: &mut Vec<Boxed<TrustRow>>,
    index: &mut RowSet<TrustSide>,
    at: usize,
    row: TrustRow,
    sides: &[TrustSide],
) -> Result<(), Memory>
    requires { at ≤ length rows.old.items }
    ensures ok { OnOk result (rows.new.items ≡ insert rows.old.items at row) }
    ensures err { OnErr result (rows.new.items ≡ rows.old.items) }
    ensures grown { AreGrown sides.now index.old index.new }
    ensures all { OnOk result (AllByRecursion (Among index.new) sides.now) }
{
    put_each(index, sides)?;
    Boxed::insert(rows, at, row)?;
    Ok(())
}

/// Puts a new trust in its place, and what it names into the index. One that found no memory is dropped.
pub(crate) fn insert(
    rows: &mut Vec<Boxed<TrustRow>>,
    index: &mut RowSet<TrustSide>,
    at: usize,
    row: TrustRow,
) -> Result<(), Memory>
    requires at { at ≤ length rows.old.items }
    requires gap { IsGapAt id_cmp (λ r. r.id) row.id rows.old.items at }
    requires sides { AreSides rows.old.items index.old }
    ensures ok { OnOk result (rows.new.items ≡ insert rows.old.items at row) }
    ensures err { OnErr result (rows.new.items ≡ rows.old.items) }
    ensures sides { AreSides rows.new.items index.new }
{
    let sides = sides_of(&row);
    match put_both(rows, index, at, row, &sides) {
        Ok(()) => Ok(()),
        Err(memory) => {
            drop_each(index, &sides);
            Err(memory)
        }
    }
}

/// Takes the trust with this id out, if there is one, and what it names out of the index.
fn drop_one(rows: &mut Vec<Boxed<TrustRow>>, index: &mut RowSet<TrustSide>, id: &Id)
    requires ascending { IsAscending id_cmp (λ row. row.id) rows.old.items }
    requires sides { AreSides rows.old.items index.old }
    ensures rows { rows.new.items ≡ drop_row id_cmp (λ row. row.id) id.now rows.old.items }
    ensures sides { AreSides rows.new.items index.new }
{
    let Ok(at) = place(rows.as_slice(), id) else {
        return;
    };
    let row = rows.remove(at);
    drop_each(index, &sides_of(row.get()));
}

/// Takes the trusts with these ids out one by one, and what they name out of the index. It takes no memory.
pub(crate) fn drop_few(rows: &mut Vec<Boxed<TrustRow>>, index: &mut RowSet<TrustSide>, ids: &[Id])
    requires ascending { IsAscending id_cmp (λ row. row.id) rows.old.items }
    requires sides { AreSides rows.old.items index.old }
    ensures rows { rows.new.items ≡ without_trusts ids.now rows.old.items }
    ensures sides { AreSides rows.new.items index.new }
{
    for id in ids {
        drop_one(rows, index, id);
    }
}
