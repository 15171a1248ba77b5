//! How a server opens.
ghost use Rattle.std.specs.Prelude.{◌≡◌, None, IfOk};
ghost use Rattle.ks_machine.specs.Lawful.{IsOpeningInRange};
ghost use Rattle.ks_machine.specs.Opened.{open_fault};
ghost use Rattle.ks_machine.specs.Ranges.{IsSettings};
ghost use Rattle.ks_opening.specs.Opened.{TellsFault, state_of};
ghost use Rattle.ks_policy.specs.Openings.{plain};
ghost use Rattle.ks_machine.specs.Fronts.{first_front};
ghost use Rattle.ks_state.specs.Standing.{Stands};

use crate::Identity;
use crate::log::Log;
use ks_appcred::AppCreds;
use ks_machine::OpenFault;
use ks_opening::{OpenedTables, open_tables};
use ks_policy::Opening;
use ks_totp::Factors;
use ks_trust::Trusts;
use std::alloc::Global;

impl Identity {
    /// An identity with the settings, rules, keys and rows of an opening. Nothing is revoked, no trust, application credential
    /// or second factor stands, no change was made, and the highest moment is 0. A membership, implication or grant that is listed twice stands once.
    ///
    /// Refused is what `open_tables` of `ks_opening` refuses, in its order. Memory may end at any time (`Memory`).
    pub fn open(alloc: Global, opening: Opening) -> Result<Identity, OpenFault>
        requires range { IsOpeningInRange (plain opening) }
        ensures stands { IfOk result (λ identity. Stands identity (first_front (plain opening))) }
        ensures fault { TellsFault (open_fault (plain opening)) result }
    {
        let opened = open_tables(alloc, opening)?;
        Ok(Identity::new(alloc, opened))
    }

    /// The identity of what a server opens with, before any change.
    fn new(alloc: Global, opened: OpenedTables) -> Identity
        requires { IsSettings opened.settings }
        ensures { result ≡ record { state = state_of opened; newest = None } }
    {
        let log = Log::new(alloc, opened.settings.life);
        Identity {
            alloc,
            settings: opened.settings,
            rules: opened.rules,
            ring: opened.ring,
            tree: opened.tree,
            people: opened.people,
            roles: opened.roles,
            grants: opened.grants,
            trusts: Trusts::new(alloc),
            catalog: opened.catalog,
            app_creds: AppCreds::new(alloc),
            factors: Factors::new(alloc),
            log,
        }
    }
}
