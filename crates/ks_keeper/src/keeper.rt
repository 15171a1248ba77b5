ghost use Rattle.std.specs.Prelude.{◌≡◌, ◌⊎◌, ℕ, IfOk, OnOk, OnErr};
ghost use Rattle.ks_outside.specs.Counts.{Counts};
ghost use Rattle.ks_keeper.specs.Keeper.{Kept, with_entry, with_header};

use crate::KeepFault;
use ks_base::Bytes;

/// Holds a header and an entry at each of some numbers. What it answered to have kept stands after a stop.
///
/// A keeper is whole while nobody else wrote it and it gave back what was written to it. One in memory is so
/// always, and a real one can't tell: its clauses on what it holds are of a keeper that is whole.
pub trait Keeper {
    ghost kept: { Self → Kept };

    ghost whole: { Self → Type 0 };

    ghost faults: { Self → ℕ };

    /// The header, where there is one.
    fn header(&mut self) -> Result<Option<Bytes>, KeepFault>
        ensures since { whole self.new → whole self.old }
        ensures told { whole self.new → IfOk result (λ found. found ≡ (kept self.old).header) }
        ensures same { whole self.new → kept self.new ≡ kept self.old }
        ensures faults { Counts (result ≡ Err KeepFault.Failed) (faults self.old) (faults self.new) };

    /// Puts the header in the place of the one that stands. After an error it was put or it was not.
    fn set_header(&mut self, header: &[u8]) -> Result<(), KeepFault>
        ensures since { whole self.new → whole self.old }
        ensures ok { whole self.new → OnOk result (kept self.new ≡ with_header header.now (kept self.old)) }
        ensures err { whole self.new → OnErr result ((kept self.new ≡ kept self.old) ⊎ (kept self.new ≡ with_header header.now (kept self.old))) }
        ensures faults { Counts (result ≡ Err KeepFault.Failed) (faults self.old) (faults self.new) };

    /// The entry with this number, where there is one.
    fn read(&mut self, number: u64) -> Result<Option<Bytes>, KeepFault>
        ensures since { whole self.new → whole self.old }
        ensures told { whole self.new → IfOk result (λ found. found ≡ (kept self.old).entries number) }
        ensures same { whole self.new → kept self.new ≡ kept self.old }
        ensures faults { Counts (result ≡ Err KeepFault.Failed) (faults self.old) (faults self.new) };

    /// Puts the entry at this number, in the place of one that stands there. After an error it was put, whole,
    /// or it was not.
    fn keep(&mut self, number: u64, entry: &[u8]) -> Result<(), KeepFault>
        ensures since { whole self.new → whole self.old }
        ensures ok { whole self.new → OnOk result (kept self.new ≡ with_entry number entry.now (kept self.old)) }
        ensures err { whole self.new → OnErr result ((kept self.new ≡ kept self.old) ⊎ (kept self.new ≡ with_entry number entry.now (kept self.old))) }
        ensures faults { Counts (result ≡ Err KeepFault.Failed) (faults self.old) (faults self.new) };
}
