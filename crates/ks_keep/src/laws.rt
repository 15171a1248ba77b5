//! What follows of an identity with its keeper, wherever it is stopped.
ghost use Rattle.std.specs.Prelude.{ℕ, List, drop};
ghost use Rattle.ks_keep.specs.Books.{IsBookOf, Spell};
ghost use Rattle.ks_keep.specs.Stops.{IsStopped};
ghost use Rattle.ks_keeper.specs.Keeper.{Kept};
ghost use Rattle.ks_machine.specs.Fronts.{Front};

/// Wherever a stop comes while pending changes are being kept, in their order, the keeper is a book of the front: it holds its changes
/// from the first on, and no fewer of them than counted as kept.
pub fn stops_leave_books()
    ensures { (kept after : Kept) (f : Front) (pending : List (List ℕ)) → IsBookOf kept f → Spell pending (drop f.kept f.changes) → IsStopped kept f.kept pending after → IsBookOf after f }
{}
