ghost use Rattle.std.specs.Prelude.{◌≡◌, length};
ghost use Rattle.ks_machine.specs.Fronts.{Front, IsSound};

use std::marker::Brand;

/// Names the front with which a turn begins. The caller of a function that is generic in it picks the front.
pub trait First {
    ghost use Rattle.ks_machine.specs.Fronts.{Front};

    ghost front: { Front };
}

impl First for Brand {
    ghost use Rattle.ks_turn.specs.Unnamed.{no_front};

    ghost front = { no_front };
}

/// A value that stands for fronts.
pub trait Journaled {
    ghost use Rattle.std.specs.Prelude.{◌≡◌, ℕ};
    ghost use Rattle.ks_machine.specs.Fronts.{Front};

    // For which fronts a value stands.
    ghost stands: { Self → Front → Type 0 };

    // How many changes of these fronts are kept.
    ghost kept: { Self → ℕ };

    /// The number of changes and the highest moment.
    fn front(&self) -> (u64, u64)
        ensures { (f : Front) → stands self.now f → (length f.changes ≡ result.0) × (f.high ≡ result.1) × IsSound f };

    ghost keeps: { (value : Self) (f : Front) → stands value f → f.kept ≡ kept value };
}
