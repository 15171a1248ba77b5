ghost use Rattle.std.specs.Prelude.{◌≡◌, ◌≤◌, ◌↔◌, ℕ, List, Option, Some, None, Err, length, map, IfOk, IfErr};
ghost use Rattle.ks_base.specs.declared.faults.KeysFault.{KeysFault};
ghost use Rattle.ks_outside.specs.Files.{KeyFile, OnlyLooks, AreIndices, indices_of};
ghost use Rattle.ks_keyfiles.specs.Folders.{ReadsAs, AreFolderKeys, IsReadingFault, folder_of, keys_in, key_in_file, line_of};
ghost use Rattle.ks_keyfiles.specs.Readings.{IsCallFault, key_at};

use ks_base::limits::{KEY_FILE_BYTES, KEYS};
use ks_base::{Key, KeyList, KeysFault};
use ks_fernet::{KeyText, read_key};
use ks_outside::{DirFault, KeyDir};
use std::alloc::Global;

/// The keys of the folder, by rising index.
///
/// A key file is the text of a key, with its padding or without, and at most one line feed behind it. It is
/// `NoKeys` where the folder lists no index, `TooMany` where it lists more than 32, and `BadKey` of the
/// lowest index whose file is missing, has more than 64 bytes or is no key. A fault of the folder is
/// `Failed`, and want of memory `Memory`. The list of keys takes its memory where the folder's list did.
pub fn read_dir<D: KeyDir>(dir: &mut D) -> Result<KeyList, KeysFault>
    ensures told { (files : List KeyFile) → (D.dir dir.old).files ≡ Some files → ReadsAs (folder_of files) result }
    ensures keys { IfOk result AreFolderKeys }
    ensures causes { IfErr result IsReadingFault }
    ensures looks { OnlyLooks (result ≡ Err KeysFault.Failed) (D.dir dir.old) (D.dir dir.new) }
{
    let indices = match dir.list() {
        Ok(indices) => indices,
        Err(fault) => return Err(fault_of(fault)),
    };
    if indices.is_empty() {
        return Err(KeysFault::NoKeys);
    }
    if indices.len() > KEYS {
        return Err(KeysFault::TooMany);
    }
    let alloc = *indices.allocator();
    read_files(alloc, dir, indices.as_slice())
}

/// The keys of the files of these indices, which are those of the folder.
fn read_files<D: KeyDir>(alloc: Global, dir: &mut D, indices: &[u32]) -> Result<KeyList, KeysFault>
    requires rising { AreIndices 0 indices.now }
    requires listed { (files : List KeyFile) → (D.dir dir.old).files ≡ Some files → indices.now ≡ indices_of files }
    ensures told { (files : List KeyFile) → (D.dir dir.old).files ≡ Some files → ReadsAs (keys_in files) result }
    ensures keys { IfOk result (λ keys. map (λ entry. entry.0) keys ≡ indices.now) }
    ensures causes { IfErr result IsReadingFault }
    ensures looks { OnlyLooks (result ≡ Err KeysFault.Failed) (D.dir dir.old) (D.dir dir.new) }
{
    let mut keys = KeyList::new(alloc);
    'files: for index in indices {
        let Some(key) = read_file(dir, *index)? else {
            return Err(KeysFault::BadKey(*index));
        };
        keys.push((*index, key))?;
    }
    Ok(keys)
}

/// The key in the file of this index.
fn read_file<D: KeyDir>(dir: &mut D, index: u32) -> Result<Option<Key>, KeysFault>
    ensures told { IfOk result (λ found. (files : List KeyFile) → (D.dir dir.old).files ≡ Some files → found ≡ key_at index files) }
    ensures causes { IfErr result IsCallFault }
    ensures looks { OnlyLooks (result ≡ Err KeysFault.Failed) (D.dir dir.old) (D.dir dir.new) }
{
    let mut piece = [0; KEY_FILE_BYTES];
    match dir.read(index, &mut piece) {
        Ok(Some(count)) => Ok(key_in(&piece[..count])),
        Ok(None) => Ok(None),
        Err(fault) => Err(fault_of(fault)),
    }
}

/// The key in a file of this content.
fn key_in(content: &[u8]) -> Option<Key>
    requires { length content.now ≤ KEY_FILE_BYTES }
    ensures { result ≡ key_in_file content.now }
{
    match read_key(without_line_feed(content)) {
        KeyText::Key(key) => Some(key),
        KeyText::NotAKey => None,
    }
}

/// The content without the line feed at its end, where it has one.
fn without_line_feed(content: &[u8]) -> &[u8]
    ensures { result.now ≡ line_of content.now }
{
    let Some((last, line)) = content.split_last() else {
        return content;
    };
    if *last == b'\n' { line } else { content }
}

/// A fault of a folder's call, as one of the reading.
pub(crate) fn fault_of(fault: DirFault) -> KeysFault
    ensures failed { (result ≡ KeysFault.Failed) ↔ (fault ≡ DirFault.Failed) }
    ensures memory { (result ≡ KeysFault.Memory) ↔ (fault ≡ DirFault.Memory) }
    ensures cause { IsCallFault result }
{
    match fault {
        DirFault::Failed => KeysFault::Failed,
        DirFault::Memory => KeysFault::Memory,
    }
}
