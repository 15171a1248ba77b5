//! The key files of a folder are rotated, as `keystone-manage fernet_rotate` does it.
ghost use Rattle.std.specs.Prelude.{◌≡◌, ◌+◌, ◌≤◌, ◌<◌, ◌++◌, [], ◌∷◌, List, Some, None, Err, length, IfOk, IfErr, OnOk};
ghost use Rattle.ks_base.specs.declared.faults.KeysFault.TheVariants as faults;
ghost use Rattle.ks_base.specs.declared.limits.TheConstants.{LAST_KEY_INDEX};
ghost use Rattle.ks_outside.specs.Counts.{Counts};
ghost use Rattle.ks_outside.specs.Files.{KeyFile, Changes, AreIndices, indices_of};
ghost use Rattle.ks_keyfiles.specs.Readings.{IsCallFault};
ghost use Rattle.ks_keyfiles.specs.Rotations.{AreRotated, IsRotationFault, RotatesFiles, highest, promoted, rotation_fault};
ghost use Rattle.ks_keyfiles.specs.steps.Removals.{AreOldest, Removes, promoted_indices};

use crate::writing::{list, remove, rename, write};
use ks_base::limits::LAST_KEY_INDEX;
use ks_base::{Key, KeysFault, Memory};
use ks_outside::KeyDir;
use std::alloc::Global;

/// Rotates the keys of a folder: the staged key becomes primary, so its file gets the index next to the
/// highest; the new key is staged under 0; and then the oldest go, one by one, until at most `max` are left.
/// Where no key is staged, as behind a rotation that was interrupted, nothing is promoted. It answers the
/// indices that are left, rising.
///
/// `NoKeys` where the folder lists no index, `IndexEnd` where the highest is 999,999,999, and then nothing is
/// changed. A fault of the folder is `Failed`, and want of memory `Memory`; after either in the middle the
/// steps before it stand, and no key is gone but those that the whole rotation removes.
pub fn rotate_dir<D: KeyDir>(dir: &mut D, new: Key, max: u32) -> Result<Vec<u32>, KeysFault>
    requires least { 2 ≤ max }
    requires most { max ≤ 32 }
    ensures told { (files : List KeyFile) → (D.dir dir.old).files ≡ Some files → RotatesFiles new max files (D.dir dir.new).files result }
    ensures indices { IfOk result (λ indices. AreRotated max indices.items) }
    ensures causes { IfErr result IsRotationFault }
    ensures faults { Counts (result ≡ Err faults.Failed) (D.dir dir.old).faults (D.dir dir.new).faults }
{
    let mut indices = list(dir)?;
    let next = next_index(indices.as_slice())?;
    // The answer has its memory before anything is changed.
    let answer = staged_alone(*indices.allocator(), max as usize)?;
    promote(dir, &mut indices, next)?;
    write(dir, 0, &new)?;
    let excess = indices.len().saturating_sub(max as usize - 1);
    let (gone, left) = indices.as_slice().split_at(excess);
    remove_all(dir, gone)?;
    Ok(followed_by(answer, left)?)
}

/// The index of the staged key, with room for `most` indices in all.
fn staged_alone(alloc: Global, most: usize) -> Result<Vec<u32>, Memory>
    ensures { IfOk result (λ made. made.items ≡ 0 ∷ []) }
{
    let mut made = Vec::with_capacity(alloc, most)?;
    made.push(0)?;
    Ok(made)
}

/// These indices and, behind them, the others.
fn followed_by(mut indices: Vec<u32>, others: &[u32]) -> Result<Vec<u32>, Memory>
    ensures { IfOk result (λ made. made.items ≡ indices.items ++ others.entry.now) }
{
    indices.extend_from_slice(others)?;
    Ok(indices)
}

/// The index next to the highest.
fn next_index(indices: &[u32]) -> Result<u32, KeysFault>
    requires { AreIndices 0 indices.now }
    ensures ok { IfOk result (λ next. (rotation_fault indices.now ≡ None) × (next ≡ highest indices.now + 1) × (next ≤ LAST_KEY_INDEX)) }
    ensures err { IfErr result (λ fault. rotation_fault indices.now ≡ Some fault) }
    ensures causes { IfErr result IsRotationFault }
{
    let Some((highest, _)) = indices.split_last() else {
        return Err(KeysFault::NoKeys);
    };
    if *highest == LAST_KEY_INDEX {
        return Err(KeysFault::IndexEnd);
    }
    Ok(*highest + 1)
}

/// Makes the staged key primary. Where none is staged, nothing is changed.
fn promote<D: KeyDir>(dir: &mut D, indices: &mut Vec<u32>, next: u32) -> Result<(), KeysFault>
    requires rising { AreIndices 0 indices.old.items }
    requires some { 0 < length indices.old.items }
    requires next { (next ≡ highest indices.old.items + 1) × (next ≤ LAST_KEY_INDEX) }
    requires listed { (files : List KeyFile) → (D.dir dir.old).files ≡ Some files → indices.old.items ≡ indices_of files }
    ensures indices { OnOk result (indices.new.items ≡ promoted_indices indices.old.items) }
    ensures told { (files : List KeyFile) → (D.dir dir.old).files ≡ Some files → Changes files (promoted files) (D.dir dir.new).files result }
    ensures untold { (D.dir dir.old).files ≡ None → (D.dir dir.new).files ≡ None }
    ensures causes { IfErr result IsCallFault }
    ensures faults { Counts (result ≡ Err faults.Failed) (D.dir dir.old).faults (D.dir dir.new).faults }
{
    if indices[0] != 0 {
        return Ok(());
    }
    rename(dir, 0, next)?;
    indices[0] = next;
    indices.rotate_left(1);
    Ok(())
}

/// Removes the files of the oldest keys.
fn remove_all<D: KeyDir>(dir: &mut D, gone: &[u32]) -> Result<(), KeysFault>
    requires { (files : List KeyFile) → (D.dir dir.old).files ≡ Some files → AreOldest gone.now files }
    ensures told { (files : List KeyFile) → (D.dir dir.old).files ≡ Some files → Removes (length gone.now) files (D.dir dir.new).files result }
    ensures causes { IfErr result IsCallFault }
    ensures faults { Counts (result ≡ Err faults.Failed) (D.dir dir.old).faults (D.dir dir.new).faults }
{
    'files: for index in gone {
        remove(dir, *index)?;
    }
    Ok(())
}
