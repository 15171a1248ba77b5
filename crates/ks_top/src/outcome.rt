ghost use Rattle.std.specs.Prelude.{◌≡◌, Some};
ghost use Rattle.ks_base.specs.Refusals.{fault_in};
ghost use Rattle.ks_top.specs.steps.Ends.{keeper_at, state_at};
ghost use Rattle.ks_top.specs.World.{HasKeeper};

use ks_commands::Fault;
use ks_keep::Booked;
use ks_keeper::Keeper;
use std::marker::Brand;

/// What a command leaves of its keeper.
#[derive(Drop)]
pub enum End<B: Keeper> {
    /// An identity was opened over it.
    Open(Booked<B, Brand>),
    /// None was.
    Shut(B),
}

impl<B: Keeper> End<B> {
    /// The identity where there is one, and else the keeper.
    pub fn into_parts(self) -> (Option<Booked<B, Brand>>, Option<B>)
        ensures state { result.0 ≡ state_at self }
        ensures keeper { HasKeeper result.0 result.1 (keeper_at self) }
    {
        match self {
            End::Open(state) => (Some(state), None),
            End::Shut(keeper) => (None, Some(keeper)),
        }
    }
}

/// How a command ended: the fault where it did not end whole, and what it left of its keeper.
#[derive(Drop)]
pub struct Outcome<B: Keeper> {
    pub fault: Option<Fault>,
    pub end: End<B>,
}

impl<B: Keeper> Outcome<B> {
    /// No identity was opened.
    pub fn of(ended: Result<(), Fault>, keeper: B) -> Outcome<B>
        ensures fault { result.fault ≡ fault_in ended }
        ensures end { result.end ≡ End.Shut keeper }
    {
        match ended {
            Ok(()) => Outcome {
                fault: None,
                end: End::Shut(keeper),
            },
            Err(fault) => Outcome::stopped(fault, keeper),
        }
    }

    /// This fault came before an identity was opened.
    pub fn stopped(fault: Fault, keeper: B) -> Outcome<B>
        ensures fault { result.fault ≡ Some fault }
        ensures end { result.end ≡ End.Shut keeper }
    {
        Outcome {
            fault: Some(fault),
            end: End::Shut(keeper),
        }
    }
}
