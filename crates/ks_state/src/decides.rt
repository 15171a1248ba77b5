ghost use Rattle.std.specs.Prelude.{◌≡◌, ◌≤◌, length};
ghost use Rattle.ks_machine.specs.Fit.{Fit};
ghost use Rattle.ks_machine.specs.Fronts.{Front};
ghost use Rattle.ks_state.specs.Decides.{CanBeTold, DecidedBy, with_kept};

use crate::Decision;
use ks_auth::Facts;
use ks_machine::Call;
use ks_turn::Journaled;

/// What became of the changes that were not kept yet.
#[derive(Drop)]
pub enum Kept<F> {
    /// All changes are kept.
    Yes,
    /// Keeping them failed.
    Fault(F),
    /// There was no memory to keep them.
    Memory,
}

/// A value that decides calls and keeps its changes.
pub trait Decides: Journaled {
    ghost use Rattle.std.specs.Prelude.{◌≡◌, ◌+◌, ◌≤◌, length};
    ghost use Rattle.ks_machine.specs.Fronts.{Front, ◌⊑◌};

    /// Why changes could not be kept.
    type Fault: Drop;

    /// Decides a call by the facts that are known, at the highest moment or at the call's reading of the clock where
    /// that is later. Where a check lacks facts it names them, and nothing changes. Want of memory is the reply
    /// `Memory`.
    fn decide(&mut self, call: &Call, facts: &Facts) -> Decision
        requires fit { Fit call.now }
        requires stands { (f : Front) × Self.stands self.old f }
        ensures decided { (f : Front) → Self.stands self.old f → DecidedBy Self.stands Self.kept f call.now facts.now result self.old self.new }
        ensures kept { Self.kept self.old ≤ Self.kept self.new }
        ensures tellable { CanBeTold result };

    /// Keeps the changes that are not kept yet.
    fn keep(&mut self) -> Kept<Self::Fault>
        ensures same { (f : Front) → Self.stands self.old f → Self.stands self.new (with_kept f (Self.kept self.new)) }
        ensures grows { Self.kept self.old ≤ Self.kept self.new }
        ensures yes { result ≡ Kept.Yes → (f : Front) → Self.stands self.new f → f.kept ≡ length f.changes };

    // Of the fronts that go on from one by one change at most, it stands for one alone.
    ghost alone: { (value : Self) (base f g : Front) → base ⊑ f → base ⊑ g → length f.changes ≤ length base.changes + 1 → Self.stands value f → Self.stands value g → g ≡ f };
}
