ghost use Rattle.std.specs.Prelude.{◌≡◌, ◌≤◌, length, IfOk};
ghost use Rattle.std.specs.Option.{option_copied};
ghost use Rattle.ks_base.specs.declared.limits.TheConstants.{KEYS};
ghost use Rattle.ks_state.specs.Shown.{raised_to};

use crate::log::Log;
use ks_appcred::AppCreds;
use ks_assign::Grants;
use ks_base::{EventList, Memory};
use ks_catalog::Catalog;
use ks_machine::{Entry, Settings};
use ks_people::People;
use ks_policy::Rules;
use ks_ring::Ring;
use ks_roles::Roles;
use ks_totp::Factors;
use ks_tree::Tree;
use ks_trust::Trusts;
use std::alloc::Global;
use std::marker::Model;

/// The identity of a server. Contracts see the machine's state, whose revocations are the live ones alone, and the last
/// change.
pub struct Identity {
    pub(crate) alloc: Global,
    pub(crate) settings: Settings,
    pub(crate) rules: Rules,
    pub(crate) ring: Ring,
    pub(crate) tree: Tree,
    pub(crate) people: People,
    pub(crate) roles: Roles,
    pub(crate) grants: Grants,
    pub(crate) trusts: Trusts,
    pub(crate) catalog: Catalog,
    pub(crate) app_creds: AppCreds,
    pub(crate) factors: Factors,
    pub(crate) log: Log,
}

impl Drop for Identity {
    fn drop(self) {
        let Identity {
            alloc: _,
            settings: _,
            rules: _,
            ring: _,
            tree: _,
            people: _,
            roles: _,
            grants: _,
            trusts: _,
            catalog: _,
            app_creds: _,
            factors: _,
            log: _,
        } = self;
    }
}

impl Model for Identity {
    ghost use Rattle.std.specs.Prelude.{◌≡◌};
    ghost use Rattle.std.specs.Coded.{codes};
    ghost use Rattle.ks_rule.specs.TreeCodes.{tree_code};
    ghost use Rattle.ks_machine.specs.Ranges.{IsSettings};
    ghost use Rattle.ks_opening.specs.Opened.{rows_in};
    ghost use Rattle.ks_state.specs.Shown.{Shown};

    ghost Value = { Shown };

    ghost coded = { Prim.hlevel (codes, tree_code) };

    ghost view = { λ i. record {
      state = record {
        settings = i.settings;
        rules = i.rules;
        ring = i.ring;
        rows = rows_in i.tree i.people i.roles i.grants i.trusts i.catalog i.app_creds i.factors.state;
        events = i.log.revoked.events;
        high = i.log.revoked.high;
        made = i.log.made;
      };
      newest = i.log.newest;
    } };

    ghost invariant = { λ i. (i.log.revoked.life ≡ i.settings.life) × IsSettings i.settings };
}

impl Identity {
    /// How many changes were made, and the highest moment.
    pub fn front(&self) -> (u64, u64)
        ensures changes { result.0 ≡ self.now.state.made }
        ensures moment { result.1 ≡ self.now.state.high }
    {
        (self.log.made(), self.log.high())
    }

    /// The last change, if there was one.
    pub fn newest(&self) -> Option<&Entry>
        ensures { option_copied result ≡ self.now.newest }
    {
        self.log.newest()
    }

    /// The live revocations, in the order in which they were written.
    pub fn kept_events(&self) -> Result<EventList, Memory>
        ensures { IfOk result (λ events. events ≡ self.now.state.events) }
    {
        self.log.revoked().kept()
    }

    /// Tells that at most 32 keys are held.
    pub(crate) fn holds_few_keys(&self)
        ensures { length self.now.state.ring.held ≤ KEYS }
    {
        let _held = self.ring.held();
    }

    /// Raises the highest moment to this one, and lets the revocations that are past then go. It takes no memory.
    pub(crate) fn raise(&mut self, moment: u64)
        requires { self.old.state.high ≤ moment }
        ensures { self.new ≡ raised_to moment self.old }
    {
        self.log.raise(moment);
    }
}
