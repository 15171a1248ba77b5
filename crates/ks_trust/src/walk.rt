//! From a trust up to the first of its chain.
ghost use Rattle.std.specs.Prelude.{◌≡◌, IfSome, IsSomeAnd, option_map};
ghost use Rattle.ks_base.specs.Rows.{trust_of};
ghost use Rattle.ks_base.specs.Tables.{id_cmp, IsAscending};
ghost use Rattle.ks_base.specs.Trusts.{first_of_new, first_trustor, goes, LeadsTo};
ghost use Rattle.ks_trust.specs.State.{is_listed};

use crate::Trusts;
use ks_base::{Id, TrustRow, has_id};

impl Trusts {
    /// The trustor of the first trust of the chain that leads to this one; `None` where no trust has this id.
    /// It takes no memory.
    pub fn first_trustor(&self, id: &Id) -> Option<Id>
        ensures first { result ≡ option_map (first_trustor self.now) (trust_of id.now self.now) }
        ensures leads { IfSome result (λ first. IsSomeAnd (trust_of id.now self.now) (λ trust. LeadsTo self.now trust first)) }
    {
        let trust = self.trust(id)?;
        Some(self.top_trustor(trust))
    }

    /// The trustor at the top of the chain that a new trust lengthens: its own where it names no parent, or none that
    /// stands. It takes no memory.
    pub fn first_of_new(&self, new: &TrustRow) -> Id
        ensures { result ≡ first_of_new self.now new.now }
    {
        match self.parent(new) {
            Some(parent) => self.top_trustor(parent),
            None => new.trustor,
        }
    }

    fn top_trustor(&self, trust: &TrustRow) -> Id
        ensures { result ≡ first_trustor self.now trust.now }
    {
        let mut top = trust;
        'up: for _ in 0..self.rows.len() {
            let Some(parent) = self.parent(top) else {
                return top.trustor;
            };
            top = parent;
        }
        top.trustor
    }

    /// Whether the list names the trust, or one above it.
    pub(crate) fn hangs_on(&self, ids: &[Id], trust: &TrustRow) -> bool
        requires ascending { IsAscending id_cmp (λ id. id) ids.now }
        ensures { result ≡ goes self.now (is_listed ids.now) trust.now }
    {
        let mut top = trust;
        'up: for _ in 0..self.rows.len() {
            if has_id(ids, &top.id) {
                return true;
            }
            let Some(parent) = self.parent(top) else {
                return false;
            };
            top = parent;
        }
        has_id(ids, &top.id)
    }
}
