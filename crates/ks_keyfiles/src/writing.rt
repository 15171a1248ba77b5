//! Key files are made, and rotated, as `keystone-manage fernet_setup` and `fernet_rotate` do it.
ghost use Rattle.std.specs.Prelude.{◌≡◌, ◌≤◌, ◌++◌, ℕ, List, Some, None, Err, length, IfOk, IfErr};
ghost use Rattle.ks_base.specs.declared.faults.KeysFault.TheVariants as faults;
ghost use Rattle.ks_outside.specs.Counts.{Counts};
ghost use Rattle.ks_outside.specs.Files.{KeyFile, IsFree, Stands, Changes, OnlyLooks, AreIndices, content_at, indices_of, with_file, without};
ghost use Rattle.ks_fernet.specs.Base64Url.{padded_text};
ghost use Rattle.ks_keyfiles.specs.Readings.{IsCallFault};
ghost use Rattle.ks_keyfiles.specs.Setups.{IsSetupFault, SetsUpFiles, key_text};

use crate::reading::fault_of;
use base64::engine::general_purpose::URL_SAFE;
use ks_base::{Key, KeysFault};
use ks_outside::KeyDir;

/// The characters of a key's text.
const TEXT_LEN: usize = 44;

/// The bytes of the key: those that sign and then those that encipher.
fn key_bytes(key: &Key) -> [u8; 32]
    ensures { result ≡ key.now.signing ++ key.now.encryption }
{
    let mut bytes = [0u8; 32];
    let (signing, encryption) = bytes.split_at_mut(16);
    signing.copy_from_slice(&key.signing);
    encryption.copy_from_slice(&key.encryption);
    bytes
}

/// Writes the text of 32 bytes, with its padding.
fn encode(bytes: &[u8], text: &mut [u8])
    requires bytes { length bytes.now ≡ 32 }
    requires text { length text.old ≡ 44 }
    ensures { text.new ≡ padded_text bytes.now }
{
    let Ok(_) = URL_SAFE.encode_slice(bytes, text) else {
        unreachable!();
    };
}

/// The text of the key with its padding.
fn key_text(key: &Key) -> [u8; TEXT_LEN]
    ensures { result ≡ key_text key.now }
{
    let mut text = [0u8; TEXT_LEN];
    encode(&key_bytes(key), &mut text);
    text
}

/// The indices of the folder's files, rising.
pub(crate) fn list<D: KeyDir>(dir: &mut D) -> Result<Vec<u32>, KeysFault>
    ensures indices { IfOk result (λ found. AreIndices 0 found.items) }
    ensures told { IfOk result (λ found. (files : List KeyFile) → (D.dir dir.old).files ≡ Some files → found.items ≡ indices_of files) }
    ensures causes { IfErr result IsCallFault }
    ensures looks { OnlyLooks (result ≡ Err faults.Failed) (D.dir dir.old) (D.dir dir.new) }
{
    match dir.list() {
        Ok(indices) => Ok(indices),
        Err(fault) => Err(fault_of(fault)),
    }
}

/// Writes the key under a free index.
pub(crate) fn write<D: KeyDir>(dir: &mut D, index: u32, key: &Key) -> Result<(), KeysFault>
    requires { (files : List KeyFile) → (D.dir dir.old).files ≡ Some files → IsFree index files }
    ensures told { (files : List KeyFile) → (D.dir dir.old).files ≡ Some files → Changes files (with_file index (key_text key.now) files) (D.dir dir.new).files result }
    ensures untold { (D.dir dir.old).files ≡ None → (D.dir dir.new).files ≡ None }
    ensures causes { IfErr result IsCallFault }
    ensures faults { Counts (result ≡ Err faults.Failed) (D.dir dir.old).faults (D.dir dir.new).faults }
{
    match dir.write_new(index, &key_text(key)) {
        Ok(()) => Ok(()),
        Err(fault) => Err(fault_of(fault)),
    }
}

/// Moves a standing file to a free index.
pub(crate) fn rename<D: KeyDir>(dir: &mut D, from: u32, to: u32) -> Result<(), KeysFault>
    requires standing { (files : List KeyFile) → (D.dir dir.old).files ≡ Some files → Stands from files }
    requires free { (files : List KeyFile) → (D.dir dir.old).files ≡ Some files → IsFree to files }
    ensures told { (files : List KeyFile) (content : List ℕ) → (D.dir dir.old).files ≡ Some files → content_at from files ≡ Some content →
        Changes files (with_file to content (without from files)) (D.dir dir.new).files result }
    ensures untold { (D.dir dir.old).files ≡ None → (D.dir dir.new).files ≡ None }
    ensures causes { IfErr result IsCallFault }
    ensures faults { Counts (result ≡ Err faults.Failed) (D.dir dir.old).faults (D.dir dir.new).faults }
{
    match dir.rename(from, to) {
        Ok(()) => Ok(()),
        Err(fault) => Err(fault_of(fault)),
    }
}

/// Removes a standing file.
pub(crate) fn remove<D: KeyDir>(dir: &mut D, index: u32) -> Result<(), KeysFault>
    requires { (files : List KeyFile) → (D.dir dir.old).files ≡ Some files → Stands index files }
    ensures told { (files : List KeyFile) → (D.dir dir.old).files ≡ Some files → Changes files (without index files) (D.dir dir.new).files result }
    ensures untold { (D.dir dir.old).files ≡ None → (D.dir dir.new).files ≡ None }
    ensures causes { IfErr result IsCallFault }
    ensures faults { Counts (result ≡ Err faults.Failed) (D.dir dir.old).faults (D.dir dir.new).faults }
{
    match dir.remove(index) {
        Ok(()) => Ok(()),
        Err(fault) => Err(fault_of(fault)),
    }
}

/// Makes the keys of an empty folder: the primary key under the index 1, and then the staged one under 0.
///
/// `AlreadySet` where the folder lists an index, and then nothing is changed. A fault of the folder is `Failed`, and
/// want of memory `Memory`; after either in the middle the first key may stand alone.
pub fn setup<D: KeyDir>(dir: &mut D, staged: Key, primary: Key) -> Result<(), KeysFault>
    ensures told { (files : List KeyFile) → (D.dir dir.old).files ≡ Some files → SetsUpFiles staged primary files (D.dir dir.new).files result }
    ensures causes { IfErr result IsSetupFault }
    ensures faults { Counts (result ≡ Err faults.Failed) (D.dir dir.old).faults (D.dir dir.new).faults }
{
    let indices = list(dir)?;
    if !indices.is_empty() {
        return Err(KeysFault::AlreadySet);
    }
    write(dir, 1, &primary)?;
    write(dir, 0, &staged)
}
