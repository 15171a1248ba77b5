ghost use Rattle.std.specs.Prelude.{◌≡◌, ◌∷◌, [], Some};
ghost use Rattle.std.specs.Option.{option_map};
ghost use Rattle.ks_outside.specs.Desks.{Makes};

use crate::DeskCall;
use std::alloc::Global;
use std::marker::Model;

/// The calls that a desk in memory notes. To note one is not to be refused, so where there is no memory for
/// one more the log tells none from then on.
#[derive(Drop)]
pub struct DeskLog {
    calls: Vec<DeskCall>,
    whole: bool,
}

impl Model for DeskLog {
    ghost use Rattle.std.specs.Prelude.{List, Option, Some, None, if◌then◌else◌};
    ghost use Rattle.ks_outside.specs.declared.desk_call.DeskCall.{DeskCall};

    ghost Value = { Option (List DeskCall) };

    ghost view = { λ l. if l.whole then Some l.calls.items else None };
}

impl DeskLog {
    /// No call was made yet.
    pub fn new(alloc: Global) -> DeskLog
        ensures { result ≡ Some [] }
    {
        DeskLog {
            calls: Vec::new(alloc),
            whole: true,
        }
    }

    /// One more call was made.
    pub fn add(&mut self, call: DeskCall)
        ensures { Makes (call ∷ []) self.old self.new }
    {
        if self.calls.push(call).is_err() {
            self.whole = false;
        }
    }

    /// The calls, in order, where all of them were noted.
    pub fn told(&self) -> Option<&[DeskCall]>
        ensures { option_map (λ calls. calls.now) result ≡ self.now }
    {
        if self.whole {
            Some(self.calls.as_slice())
        } else {
            None
        }
    }
}
