ghost use Rattle.std.specs.Prelude.{◌≡◌, ◌≢◌, ◌≤◌, ◌↔◌, [], ℕ, List, Option, Some, None, IsTrue, IfOk, IfSome, OnOk};
ghost use Rattle.std.specs.Bool.{OnTrue, OnFalse};
ghost use Rattle.ks_outside.specs.Counts.{next_count};
ghost use Rattle.ks_outside.specs.Files.{KeyFile, OnlyLooks, AreIndices, AreFiles, IsFree, Stands, Changes, Gives, indices_of, content_at, short_content, with_file, without, filed_from};
ghost use Rattle.ks_outside.specs.InMemory.{Called, told_dir};

use crate::calls::Calls;
use crate::files::{filed, find_place, indices, moved, put, short, take_out};
use crate::{DirFault, Failed, KeyDir};
use ks_base::limits::KEY_FILE_BYTES;
use ks_base::{Bytes, Memory};
use std::alloc::Global;
use std::marker::Model;

/// A key folder in memory, which tells its files. Chosen calls fail, and where it is so made every call
/// after a number of them. A call that fails changes no file.
pub struct MemoryDir {
    files: Vec<(u32, Bytes)>,
    limit: Option<u64>,
    calls: Calls,
}

impl Drop for MemoryDir {
    fn drop(self) {
        let MemoryDir {
            files: _,
            limit: _,
            calls: _,
        } = self;
    }
}

impl Model for MemoryDir {
    ghost use Rattle.ks_outside.specs.Files.{AreIndices, indices_of};
    ghost use Rattle.ks_outside.specs.InMemory.{MemoryDirState};

    ghost Value = { MemoryDirState };

    ghost view = { λ d. record { files = d.files.items; calls = d.calls.made; failing = d.calls.failing.items; limit = d.limit; faults = d.calls.faults } };

    ghost invariant = { λ d. AreIndices 0 (indices_of d.files.items) };
}

impl MemoryDir {
    /// A folder of these files, of which a later one takes the place of an earlier one with its index. The
    /// calls with the numbers `fail_calls`, counted from 1, will fail, and so will every call after the
    /// first `calls`, where that is a number.
    pub fn new(
        alloc: Global,
        files: &[(u32, Bytes)],
        fail_calls: &[u64],
        calls: Option<u64>,
    ) -> Result<MemoryDir, Memory>
        requires { AreFiles files.now }
        ensures { IfOk result (λ made. made ≡ record { files = filed_from [] files.now; calls = 0; failing = fail_calls.now; limit = calls; faults = 0 }) }
    {
        Ok(MemoryDir {
            files: filed(alloc, files)?,
            limit: calls,
            calls: Calls::new(alloc, fail_calls)?,
        })
    }

    /// The files by rising index.
    pub fn files(&self) -> &[(u32, Bytes)]
        ensures files { result.now ≡ self.now.files }
        ensures rising { AreIndices 0 (indices_of self.now.files) }
    {
        self.files.as_slice()
    }

    /// Whether there is a file with this index, and none may be written under it.
    pub fn stands(&self, index: u32) -> bool
        ensures stands { OnTrue result (Stands index self.now.files) }
        ensures free { OnFalse result (content_at index self.now.files ≡ None) }
    {
        find_place(self.files.as_slice(), index).is_ok()
    }

    /// Counts one more call, and a fault where it is one that is to fail.
    fn begin(&mut self) -> Result<(), DirFault>
        ensures called { Called (result ≡ Err DirFault.Failed) self.old self.new }
        ensures memory { result ≢ Err DirFault.Memory }
        ensures ok { OnOk result (self.new ≡ record self.old { calls = next_count self.old.calls }) }
    {
        let spent = is_spent(self.limit, self.calls.made);
        match self.calls.begin() {
            Ok(()) => {}
            Err(Failed) => return Err(DirFault::Failed),
        }
        if spent {
            let Failed = self.calls.fault();
            return Err(DirFault::Failed);
        }
        Ok(())
    }
}

/// Whether there is a limit and so many calls have come to it.
fn is_spent(limit: Option<u64>, made: u64) -> bool
    ensures { IsTrue result ↔ ((calls : ℕ) × (limit ≡ Some calls) × (calls ≤ made)) }
{
    match limit {
        Some(calls) => calls <= made,
        None => false,
    }
}

impl KeyDir for MemoryDir {
    ghost dir = { told_dir };

    fn list(&mut self) -> Result<Vec<u32>, DirFault>
        ensures indices { IfOk result (λ found. AreIndices 0 found.items) }
        ensures told { IfOk result (λ found. (told : List KeyFile) → Some self.old.files ≡ Some told → found.items ≡ indices_of told) }
        ensures looks { OnlyLooks (result ≡ Err DirFault.Failed) (told_dir self.old) (told_dir self.new) }

        ensures called { Called (result ≡ Err DirFault.Failed) self.old self.new }
        ensures after { result ≢ Err DirFault.Failed → self.new ≡ record self.old { calls = next_count self.old.calls } }
    {
        self.begin()?;
        let alloc = *self.files.allocator();
        Ok(indices(alloc, self.files.as_slice())?)
    }

    fn read(
        &mut self,
        index: u32,
        into: &mut [u8; KEY_FILE_BYTES],
    ) -> Result<Option<usize>, DirFault>
        ensures within { IfOk result (λ found. IfSome found (λ n. n ≤ KEY_FILE_BYTES)) }
        ensures told { IfOk result (λ found. (told : List KeyFile) → Some self.old.files ≡ Some told → Gives (short_content (content_at index told)) into.new found) }
        ensures looks { OnlyLooks (result ≡ Err DirFault.Failed) (told_dir self.old) (told_dir self.new) }

        ensures called { Called (result ≡ Err DirFault.Failed) self.old self.new }
        ensures memory { result ≢ Err DirFault.Memory }
        ensures ok { OnOk result (self.new ≡ record self.old { calls = next_count self.old.calls }) }
    {
        self.begin()?;
        let Some(content) = short(self.files.as_slice(), index) else {
            return Ok(None);
        };
        let count = content.len();
        into[..count].copy_from_slice(content);
        Ok(Some(count))
    }

    fn write_new(&mut self, index: u32, content: &[u8]) -> Result<(), DirFault>
        requires { (told : List KeyFile) → Some self.old.files ≡ Some told → IsFree index told }
        ensures told { (told : List KeyFile) → Some self.old.files ≡ Some told → Changes told (with_file index content.now told) (Some self.new.files) result }
        ensures untold { Some self.old.files ≡ None → Some self.new.files ≡ None }
        ensures called { Called (result ≡ Err DirFault.Failed) self.old self.new }
        ensures ok { OnOk result (self.new ≡ record self.old { files = with_file index content.now self.old.files; calls = next_count self.old.calls }) }
        ensures memory { result ≡ Err DirFault.Memory → self.new ≡ record self.old { calls = next_count self.old.calls } }
    {
        self.begin()?;
        let alloc = *self.files.allocator();
        let content = Bytes::of(alloc, content)?;
        put(&mut self.files, index, content)?;
        Ok(())
    }

    fn rename(&mut self, from: u32, to: u32) -> Result<(), DirFault>
        requires standing { (told : List KeyFile) → Some self.old.files ≡ Some told → Stands from told }
        requires free { (told : List KeyFile) → Some self.old.files ≡ Some told → IsFree to told }
        ensures told { (told : List KeyFile) (content : List ℕ) → Some self.old.files ≡ Some told → content_at from told ≡ Some content →
            Changes told (with_file to content (without from told)) (Some self.new.files) result }
        ensures untold { Some self.old.files ≡ None → Some self.new.files ≡ None }
        ensures called { Called (result ≡ Err DirFault.Failed) self.old self.new }
        ensures memory { result ≢ Err DirFault.Memory }
        ensures ok { OnOk result ((content : List ℕ) → content_at from self.old.files ≡ Some content →
            self.new ≡ record self.old { files = with_file to content (without from self.old.files); calls = next_count self.old.calls }) }
    {
        self.begin()?;
        moved(&mut self.files, from, to);
        Ok(())
    }

    fn remove(&mut self, index: u32) -> Result<(), DirFault>
        requires { (told : List KeyFile) → Some self.old.files ≡ Some told → Stands index told }
        ensures told { (told : List KeyFile) → Some self.old.files ≡ Some told → Changes told (without index told) (Some self.new.files) result }
        ensures untold { Some self.old.files ≡ None → Some self.new.files ≡ None }
        ensures called { Called (result ≡ Err DirFault.Failed) self.old self.new }
        ensures memory { result ≢ Err DirFault.Memory }
        ensures ok { OnOk result (self.new ≡ record self.old { files = without index self.old.files; calls = next_count self.old.calls }) }
    {
        self.begin()?;
        let _content = take_out(&mut self.files, index);
        Ok(())
    }
}
