ghost use Rattle.std.specs.Prelude.{◌≡◌, ◌≤◌, ℕ, List, Some, IfOk, if◌then◌else◌};
ghost use Rattle.ks_outside.specs.Files.{KeyFile};
ghost use Rattle.ks_server.specs.Ties.{IsReadFor, IsReadFrom, Rises, is_fault};

use ks_base::{KeysFault, Memory};
use ks_keyfiles::read_dir;
use ks_machine::FolderRead;
use ks_outside::KeyDir;

/// Reads the folder of keys, where a command loads them.
pub fn read_folder<D: KeyDir>(loads: bool, dir: &mut D) -> Result<FolderRead, Memory>
    ensures read { IfOk result (IsReadFor loads) }
    ensures told { IfOk result (λ read. (files : List KeyFile) → (D.dir dir.old).files ≡ Some files → IsReadFrom files read) }
    ensures faults { IfOk result (λ read. Rises (if is_fault read then 1 else 0) (D.dir dir.old).faults (D.dir dir.new).faults) }
    ensures kept { (D.dir dir.old).faults ≤ (D.dir dir.new).faults }
    ensures files { (D.dir dir.new).files ≡ (D.dir dir.old).files }
{
    if !loads {
        return Ok(FolderRead::Unused);
    }
    match read_dir(dir) {
        Ok(keys) => Ok(FolderRead::Keys(keys)),
        Err(KeysFault::Memory) => Err(Memory),
        Err(fault) => Ok(FolderRead::Fault(fault)),
    }
}

/// Whether the folder failed.
pub fn has_failed(read: &FolderRead) -> bool
    ensures { result ≡ is_fault read.now }
{
    matches!(read, FolderRead::Fault(KeysFault::Failed))
}
