//! The keys that are held: rotation, and loading from the folder.
ghost use Rattle.std.specs.Prelude.{◌≡◌, ◌<◌, suc, nat_lt, find, None, IfOk};
ghost use Rattle.std.specs.Option.{option_copied};
ghost use Rattle.ks_auth.specs.Answers.{Tells};
ghost use Rattle.ks_base.specs.declared.receipt.Drawn.TheVariants as drawns;
ghost use Rattle.ks_base.specs.declared.faults.KeysFault.TheVariants as faults;
ghost use Rattle.ks_base.specs.declared.limits.TheConstants.{LAST_KEY_INDEX};
ghost use Rattle.ks_machine.specs.Attempts.{need};
ghost use Rattle.ks_machine.specs.declared.cause.Cause.TheVariants as causes;
ghost use Rattle.ks_machine.specs.Fit.{IsFolder};
ghost use Rattle.ks_machine.specs.Keys.{is_failed, keys_read, load_keys, rotate_keys};
ghost use Rattle.ks_machine.specs.States.{State};
ghost use Rattle.ks_checks.specs.Plans.{Gives, Passes, Plans};
ghost use Rattle.ks_plan.specs.KeysTold.{indices_of, indices_rotated, keys_told};
ghost use Rattle.ks_ring.specs.Rings.{active, highest, is_staged, new_of, promoted, promoted_to, refusal_of};

use ks_auth::Tables;
use ks_base::limits::LAST_KEY_INDEX;
use ks_base::{IndexList, KeyList, KeysFault, Memory};
use ks_checks::checks::need;
use ks_checks::draws::key;
use ks_checks::{Halt, Plan};
use ks_machine::{BodyOut, Cause, Change, FolderRead};
use ks_ring::{HeldKey, Ring};
use std::alloc::{AllocError, Global};

/// What is told of keys with these indices, which fall.
fn told_of(alloc: Global, falling: &[u32]) -> Result<BodyOut, Memory>
    ensures { IfOk result (λ told. told ≡ keys_told falling.now) }
{
    let mut rising = Vec::from_slice(alloc, falling)?;
    rising.reverse();
    let sealing = match falling.first() {
        Some(index) => *index,
        None => 0,
    };
    Ok(BodyOut::Keys(IndexList::from_vec(rising), sealing))
}

/// The indices of these keys.
fn indices_of(alloc: Global, held: &[HeldKey]) -> Result<Vec<u32>, AllocError>
    ensures { IfOk result (λ list. list.items ≡ indices_of held.now) }
{
    held.iter().map(|key| key.index).collect(alloc)
}

/// The indices of the keys that are not staged.
fn indices_active(alloc: Global, held: &[HeldKey]) -> Result<Vec<u32>, AllocError>
    ensures { IfOk result (λ list. list.items ≡ indices_of (active held.now)) }
{
    held.iter()
        .filter(|key| key.index != 0)
        .map(|key| key.index)
        .collect(alloc)
}

/// The highest index, which is the first.
fn highest(held: &[HeldKey]) -> u32
    ensures { result ≡ highest held.now }
{
    match held.first() {
        Some(key) => key.index,
        None => 0,
    }
}

/// The staged key, if there is one.
fn staged(held: &[HeldKey]) -> Option<&HeldKey>
    ensures { option_copied result ≡ find is_staged held.now }
{
    held.iter().find(|key| key.index == 0)
}

/// The index of a staged key once it is promoted: that above the highest.
fn index_promoted(alloc: Global, held: &[HeldKey]) -> Result<Vec<u32>, AllocError>
    requires { highest held.now < LAST_KEY_INDEX }
    ensures { IfOk result (λ list. list.items ≡ indices_of (promoted_to (suc (highest held.now)) (find is_staged held.now))) }
{
    match staged(held) {
        Some(_) => Vec::from_slice(alloc, &[highest(held) + 1]),
        None => Ok(Vec::new(alloc)),
    }
}

/// The indices once a staged key is promoted.
#[tactic(auto, using(crate::proofs::KeyLemmas::promoted_indices))]
fn indices_promoted(alloc: Global, held: &[HeldKey]) -> Result<Vec<u32>, AllocError>
    requires { highest held.now < LAST_KEY_INDEX }
    ensures { IfOk result (λ list. list.items ≡ indices_of (promoted held.now)) }
{
    let mut indices = index_promoted(alloc, held)?;
    let active = indices_active(alloc, held)?;
    indices.extend_from_slice(active.as_slice())?;
    Ok(indices)
}

/// The indices after a rotation.
fn indices_rotated(alloc: Global, held: &[HeldKey], most: u32) -> Result<IndexList, Memory>
    requires { highest held.now < LAST_KEY_INDEX }
    ensures { IfOk result (λ list. list ≡ indices_rotated held.now most) }
{
    let mut indices = indices_promoted(alloc, held)?;
    indices.truncate(most.saturating_sub(1) as usize);
    indices.push(0)?;
    Ok(IndexList::from_vec(indices))
}

/// Goes on while there is an index above the highest.
fn is_below_end(tables: &Tables) -> Result<(), Halt>
    ensures { Passes result (need (nat_lt (highest tables.now.ring.now.held) LAST_KEY_INDEX) (causes.Keys faults.IndexEnd)) }
{
    let is_below = tables.ring.primary().index < LAST_KEY_INDEX;
    need(is_below, Cause::Keys(KeysFault::IndexEnd))
}

/// Moves the keys on, and stages a new one.
#[inline(never)]
#[tactic(auto, unfolding(ks_machine::specs::Keys::rotate_keys))]
pub fn rotate_keys(alloc: Global, tables: &Tables, drawn: &[u8; 64]) -> Result<Plan, Halt>
    ensures { (S : State) → Tells tables.now S → Plans result (rotate_keys S (drawns.Bytes drawn.now)) }
{
    need(!tables.settings.folder, Cause::KeyMode)?;
    is_below_end(tables)?;
    let indices = indices_rotated(alloc, tables.ring.held(), tables.settings.max_keys)?;
    let told = told_of(alloc, indices.as_slice())?;
    Ok(Plan::changes(Change::Rotate(key(drawn)), told))
}

/// Whether the folder failed, or was not read.
pub fn is_failed(read: &FolderRead) -> bool
    ensures { result ≡ is_failed read.now }
{
    match read {
        FolderRead::Unused | FolderRead::Fault(KeysFault::Failed) => true,
        FolderRead::Keys(_) => false,
        FolderRead::Fault(KeysFault::NoKeys | KeysFault::BadKey(_) | KeysFault::TooMany) => false,
        FolderRead::Fault(KeysFault::AlreadySet | KeysFault::IndexEnd | KeysFault::Memory) => false,
    }
}

/// The keys that were read of the folder.
fn keys_read(read: &FolderRead) -> Result<&KeyList, Halt>
    ensures { Gives (λ keys. keys.now) result (keys_read read.now) }
{
    match read {
        FolderRead::Keys(found) => Ok(found),
        FolderRead::Fault(fault) => Err(Halt::Refused(Cause::Keys(*fault))),
        FolderRead::Unused => Err(Halt::Refused(Cause::KeyDir)),
    }
}

/// The indices of these keys, once they are held.
fn indices_loaded(alloc: Global, found: &KeyList) -> Result<IndexList, Memory>
    requires { refusal_of found.now ≡ None }
    ensures { IfOk result (λ list. list ≡ indices_of (new_of found.now).held) }
{
    let Ok(ring) = Ring::new(found.as_slice()) else {
        unreachable!()
    };
    Ok(IndexList::from_vec(indices_of(alloc, ring.held())?))
}

/// Holds the keys of the folder.
#[inline(never)]
#[tactic(auto, unfolding(ks_machine::specs::Keys::load_keys))]
pub fn load_keys(alloc: Global, tables: &Tables, read: &FolderRead) -> Result<Plan, Halt>
    requires { IsFolder read.now }
    ensures { (S : State) → Tells tables.now S → Plans result (load_keys S read.now) }
{
    need(tables.settings.folder, Cause::KeyMode)?;
    let found = keys_read(read)?;
    let indices = indices_loaded(alloc, found)?;
    let told = told_of(alloc, indices.as_slice())?;
    let kept = found.copy()?;
    Ok(Plan::changes(Change::Load(kept), told))
}
