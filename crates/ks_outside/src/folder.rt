ghost use Rattle.std.specs.Prelude.{◌≡◌, ◌≤◌, length, IfOk, IfSome};
ghost use Rattle.ks_outside.specs.Counts.{next_count};
ghost use Rattle.ks_outside.specs.Files.{AreIndices, IsIndex};
ghost use Rattle.ks_outside.specs.Real.{untold_dir};

use crate::files::{indices, put};
use crate::real_source::read_uninterrupted;
use crate::{DirFault, Failed, KeyDir};
use ks_base::limits::{KEY_FILE_BYTES, LAST_KEY_INDEX};
use ks_base::{Bytes, Memory};
use std::alloc::Global;
use std::fs::{DirEntry, File, OpenFile, OpenOptions, Permissions};
use std::io::{ErrorKind, Read, Write};
use std::marker::Model;
use std::os::unix::fs::{OpenOptionsExt, PermissionsExt};
use std::rt::Files;
use std::{fs, io};

/// The mode of a key file that is made or moved: its owner reads and writes it.
const OWNER_ALONE: u32 = 0o600;

/// The bits of a mode that say who may do what.
const RIGHTS: u32 = 0o7777;

/// A key folder over a folder of the system. The name of a key file is the decimal of its index without a
/// leading zero; other names are passed over. A key file that is made or moved has the mode 0600. It does not
/// tell its files, and counts its faults. The count stands still at 2^64 - 1.
#[derive(Drop)]
pub struct Folder<'a, R> {
    rt: &'a R,
    path: String,
    faults: u64,
}

impl<'a, R> Model for Folder<'a, R> {
    ghost use Rattle.ks_outside.specs.Real.{RealDirState};

    ghost Value = { RealDirState };

    ghost view = { λ d. record { faults = d.faults } };
}

impl<'a, R> Folder<'a, R> {
    /// The folder at this path, which has not failed yet.
    pub fn new(alloc: Global, rt: &'a R, path: &str) -> Result<Folder<'a, R>, Memory>
        ensures { IfOk result (λ made. made ≡ record { faults = 0 }) }
    {
        Ok(Folder {
            rt,
            path: String::from_str(alloc, path)?,
            faults: 0,
        })
    }

    /// Passes an answer on, and counts a fault.
    fn counted<T>(&mut self, answer: Result<T, DirFault>) -> Result<T, DirFault>
        ensures answer { result ≡ answer }
        ensures count { self.old.faults ≤ self.new.faults }
        ensures failed { answer ≡ Err DirFault.Failed → self.new.faults ≡ next_count self.old.faults }
    {
        match answer {
            Err(DirFault::Failed) => {
                self.faults = self.faults.saturating_add(1);
                Err(DirFault::Failed)
            }
            other => other,
        }
    }
}

impl<R: Files + AllocGlobal + Clone + Drop> KeyDir for Folder<'_, R> {
    ghost dir = { untold_dir };

    fn list(&mut self) -> Result<Vec<u32>, DirFault> {
        let answer = list(self.rt, self.path.as_str());
        self.counted(answer)
    }

    fn read(
        &mut self,
        index: u32,
        into: &mut [u8; KEY_FILE_BYTES],
    ) -> Result<Option<usize>, DirFault> {
        let answer = read(self.rt, self.path.as_str(), index, into);
        self.counted(answer)
    }

    /// Writes a file whose name is no number, and gives it its name when all of it has reached the disk, so
    /// that a stop leaves the whole key file or none.
    fn write_new(&mut self, index: u32, content: &[u8]) -> Result<(), DirFault> {
        let answer = write_new(self.rt, self.path.as_str(), index, content);
        self.counted(answer)
    }

    fn rename(&mut self, from: u32, to: u32) -> Result<(), DirFault> {
        let answer = rename(self.rt, self.path.as_str(), from, to);
        self.counted(answer)
    }

    fn remove(&mut self, index: u32) -> Result<(), DirFault> {
        let answer = remove(self.rt, self.path.as_str(), index);
        self.counted(answer)
    }
}

fn list<R: Files + AllocGlobal + Clone + Drop>(rt: &R, path: &str) -> Result<Vec<u32>, DirFault>
    ensures { IfOk result (λ found. AreIndices 0 found.items) }
{
    // Each index with no content.
    let mut found = Vec::new(rt.alloc());
    'entries: for entry in answered(fs::read_dir(rt, path))? {
        if let Some(index) = index_of(entry)? {
            put(&mut found, index, Bytes::from_vec(Vec::new(rt.alloc())))?;
        }
    }
    Ok(indices(rt.alloc(), found.as_slice())?)
}

fn read<R: Files + AllocGlobal>(
    rt: &R,
    path: &str,
    index: u32,
    into: &mut [u8; KEY_FILE_BYTES],
) -> Result<Option<usize>, DirFault>
    ensures { IfOk result (λ found. IfSome found (λ n. n ≤ KEY_FILE_BYTES)) }
{
    if index > LAST_KEY_INDEX {
        return Ok(None);
    }
    let name = name_of(rt.alloc(), path, index)?;
    let Some(mut file) = opened(rt, name.as_str())? else {
        return Ok(None);
    };
    let mut held = [0; 65];
    let count = read_front(&mut file, &mut held)?;
    if count > KEY_FILE_BYTES {
        return Ok(None);
    }
    into[..count].copy_from_slice(&held[..count]);
    Ok(Some(count))
}

/// The file of this name, if there is one. What is no file fails, and is not opened: who opens a FIFO waits until
/// somebody writes to it.
fn opened<R: Files>(rt: &R, name: &str) -> Result<Option<R::File>, DirFault> {
    match if_there(fs::metadata(rt, name))? {
        Some(found) if found.is_file() => if_there(File::open(rt, name)),
        Some(_) => Err(DirFault::Failed),
        None => Ok(None),
    }
}

/// Reads until the piece is full or the input ends, and says how many bytes came.
fn read_front<F: Read>(file: &mut F, piece: &mut [u8]) -> Result<usize, Failed>
    ensures { IfOk result (λ n. n ≤ length piece.old) }
{
    let mut count = 0;
    'reads: while count < piece.len() {
        let more = read_uninterrupted(file, &mut piece[count..])?;
        if more == 0 {
            return Ok(count);
        }
        count += more;
    }
    Ok(count)
}

fn write_new<R: Files + AllocGlobal>(
    rt: &R,
    path: &str,
    index: u32,
    content: &[u8],
) -> Result<(), DirFault> {
    let name = name_of(rt.alloc(), path, index)?;
    let fresh = fresh_name(rt.alloc(), name.as_str())?;
    if index > LAST_KEY_INDEX || stands(rt, name.as_str())? {
        return Err(DirFault::Failed);
    }
    let mut file = made_anew(rt, fresh.as_str())?;
    answered(file.write_all(content))?;
    answered(file.sync_all())?;
    if stands(rt, name.as_str())? {
        return Err(DirFault::Failed);
    }
    answered(fs::rename(rt, fresh.as_str(), name.as_str()))?;
    sync_names(rt, path)
}

/// A new file that its owner alone may read. What a stop left under this name is removed first, since a file
/// that stands keeps its mode.
fn made_anew<R: Files>(rt: &R, name: &str) -> Result<R::File, DirFault> {
    if_there(fs::remove_file(rt, name))?;
    answered(
        OpenOptions::new()
            .write(true)
            .create_new(true)
            .mode(OWNER_ALONE)
            .open(rt, name),
    )
}

fn rename<R: Files + AllocGlobal>(rt: &R, path: &str, from: u32, to: u32) -> Result<(), DirFault> {
    let old = name_of(rt.alloc(), path, from)?;
    let new = name_of(rt.alloc(), path, to)?;
    if from > LAST_KEY_INDEX || to > LAST_KEY_INDEX || stands(rt, new.as_str())? {
        return Err(DirFault::Failed);
    }
    leave_to_owner(rt, old.as_str())?;
    answered(fs::rename(rt, old.as_str(), new.as_str()))?;
    sync_names(rt, path)
}

/// Takes a file from all but its owner. One that is its owner's alone stays as it is, since nobody else may set its
/// mode, and who may write the folder may move it.
fn leave_to_owner<R: Files>(rt: &R, name: &str) -> Result<(), DirFault> {
    let found = answered(fs::metadata(rt, name))?;
    if found.permissions().mode() & RIGHTS == OWNER_ALONE {
        return Ok(());
    }
    answered(fs::set_permissions(rt, name, Permissions::from_mode(OWNER_ALONE)))
}

fn remove<R: Files + AllocGlobal>(rt: &R, path: &str, index: u32) -> Result<(), DirFault> {
    let name = name_of(rt.alloc(), path, index)?;
    if index > LAST_KEY_INDEX {
        return Err(DirFault::Failed);
    }
    answered(fs::remove_file(rt, name.as_str()))?;
    sync_names(rt, path)
}

/// Has the disk hold which files the folder has, so that what was made, renamed or removed stays so after a
/// stop of the machine.
fn sync_names<R: Files>(rt: &R, path: &str) -> Result<(), DirFault> {
    let folder = answered(File::open(rt, path))?;
    answered(folder.sync_all())
}

/// The answer of a call of the system.
fn answered<T: Drop>(answer: io::Result<T>) -> Result<T, DirFault> {
    match answer {
        Ok(value) => Ok(value),
        Err(error) => Err(error.into()),
    }
}

/// The answer of a call of the system, none where what it names is not there.
fn if_there<T: Drop>(answer: io::Result<T>) -> Result<Option<T>, DirFault> {
    match answer {
        Ok(value) => Ok(Some(value)),
        Err(error) if error.kind() == ErrorKind::NotFound => Ok(None),
        Err(error) => Err(error.into()),
    }
}

fn name_of(alloc: Global, path: &str, index: u32) -> Result<String, Memory> {
    Ok(format!(in alloc; "{path}/{index}")?)
}

/// The name of a key file that is being written, which is no key file's.
fn fresh_name(alloc: Global, name: &str) -> Result<String, Memory> {
    Ok(format!(in alloc; "{name}.new")?)
}

/// Whether there is anything with this name.
fn stands<R: Files>(rt: &R, name: &str) -> Result<bool, DirFault> {
    let found = if_there(fs::symlink_metadata(rt, name))?;
    Ok(found.is_some())
}

/// The index of an entry of a folder, if it has one.
fn index_of<R: Files + Drop>(entry: io::Result<DirEntry<R>>) -> Result<Option<u32>, DirFault>
    ensures { IfOk result (λ found. IfSome found IsIndex) }
{
    match entry {
        Ok(entry) => Ok(index_named(entry.file_name().as_bytes())),
        // Its name is no text.
        Err(error) if error.kind() == ErrorKind::InvalidFilename => Ok(None),
        Err(error) => Err(error.into()),
    }
}

/// The index that a file's name spells.
fn index_named(name: &[u8]) -> Option<u32>
    ensures { IfSome result IsIndex }
{
    if name.is_empty() || (name.len() > 1 && name[0] == b'0') {
        return None;
    }
    let mut index = 0u32;
    'digits: for digit in name {
        if !digit.is_ascii_digit() {
            return None;
        }
        index = index
            .checked_mul(10)?
            .checked_add(u32::from(*digit - b'0'))?;
    }
    if index <= LAST_KEY_INDEX {
        Some(index)
    } else {
        None
    }
}
