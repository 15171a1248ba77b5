ghost use Rattle.std.specs.Prelude.{◌≡◌, ◌≤◌, ℕ, List, Some, None, length, IfOk, IfSome};
ghost use Rattle.ks_outside.specs.Counts.{Counts};
ghost use Rattle.ks_outside.specs.Files.{KeyFile, DirState, OnlyLooks, AreIndices, IsFree, Stands, Changes, Gives, indices_of, content_at, short_content, with_file, without};

use crate::DirFault;
use ks_base::limits::KEY_FILE_BYTES;

/// A folder of key files: a finite map from an index, 0 to 999,999,999, to a content. After an error a
/// change was made whole or not at all.
pub trait KeyDir {
    ghost dir: { Self → DirState };

    /// The indices that stand, rising and each once.
    fn list(&mut self) -> Result<Vec<u32>, DirFault>
        ensures indices { IfOk result (λ found. AreIndices 0 found.items) }
        ensures told { IfOk result (λ found. (told : List KeyFile) → (dir self.old).files ≡ Some told → found.items ≡ indices_of told) }
        ensures looks { OnlyLooks (result ≡ Err DirFault.Failed) (dir self.old) (dir self.new) };

    /// Reads a file into the front of a piece, and says how long its content is. It is `None` where the
    /// index is missing or its content is longer than 64 bytes.
    fn read(
        &mut self,
        index: u32,
        into: &mut [u8; KEY_FILE_BYTES],
    ) -> Result<Option<usize>, DirFault>
        ensures within { IfOk result (λ found. IfSome found (λ n. n ≤ KEY_FILE_BYTES)) }
        ensures told { IfOk result (λ found. (told : List KeyFile) → (dir self.old).files ≡ Some told → Gives (short_content (content_at index told)) into.new found) }
        ensures looks { OnlyLooks (result ≡ Err DirFault.Failed) (dir self.old) (dir self.new) };

    /// Writes a file under a free index. A folder that does not tell its files answers a fault where the
    /// index is not free.
    fn write_new(&mut self, index: u32, content: &[u8]) -> Result<(), DirFault>
        requires { (told : List KeyFile) → (dir self.old).files ≡ Some told → IsFree index told }
        ensures told { (told : List KeyFile) → (dir self.old).files ≡ Some told → Changes told (with_file index content.now told) (dir self.new).files result }
        ensures untold { (dir self.old).files ≡ None → (dir self.new).files ≡ None }
        ensures faults { Counts (result ≡ Err DirFault.Failed) (dir self.old).faults (dir self.new).faults };

    /// Moves a standing file to a free index. A folder that does not tell its files answers a fault where
    /// there is no such file or the index is not free.
    fn rename(&mut self, from: u32, to: u32) -> Result<(), DirFault>
        requires standing { (told : List KeyFile) → (dir self.old).files ≡ Some told → Stands from told }
        requires free { (told : List KeyFile) → (dir self.old).files ≡ Some told → IsFree to told }
        ensures told { (told : List KeyFile) (content : List ℕ) → (dir self.old).files ≡ Some told → content_at from told ≡ Some content →
            Changes told (with_file to content (without from told)) (dir self.new).files result }
        ensures untold { (dir self.old).files ≡ None → (dir self.new).files ≡ None }
        ensures faults { Counts (result ≡ Err DirFault.Failed) (dir self.old).faults (dir self.new).faults };

    /// Removes a standing file. A folder that does not tell its files answers a fault where there is none.
    fn remove(&mut self, index: u32) -> Result<(), DirFault>
        requires { (told : List KeyFile) → (dir self.old).files ≡ Some told → Stands index told }
        ensures told { (told : List KeyFile) → (dir self.old).files ≡ Some told → Changes told (without index told) (dir self.new).files result }
        ensures untold { (dir self.old).files ≡ None → (dir self.new).files ≡ None }
        ensures faults { Counts (result ≡ Err DirFault.Failed) (dir self.old).faults (dir self.new).faults };
}
