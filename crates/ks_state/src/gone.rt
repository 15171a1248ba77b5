//! What goes and ends with a row that goes.
ghost use Rattle.std.specs.Prelude.{◌≡◌, IfOk};
ghost use Rattle.ks_base.specs.Tables.{id_cmp, IsAscending};
ghost use Rattle.ks_machine.specs.declared.change.Change.{Change};
ghost use Rattle.ks_machine.specs.Changes.{effect};
ghost use Rattle.ks_state.specs.DomainRows.{AreOf};
ghost use Rattle.ks_state.specs.Shown.{people_in, tree_in};
ghost use Rattle.ks_trust.specs.State.{without_trusts, IsClosed};

use crate::Identity;
use crate::domain_gone::domain_trusts;
use crate::domain_rows::DomainRows;
use crate::ended::one;
use crate::trusts_gone::{Naming, TrustsGone, WithRole, trusts_gone};
use ks_base::{Id, ListOf, Memory, Revoke};

impl Identity {
    /// The trusts that go with a domain, and all that ends with it.
    pub(crate) fn domain_gone(&self, rows: &DomainRows) -> Result<TrustsGone, Memory>
        requires { AreOf rows.now (tree_in self.now) (people_in self.now) }
        ensures things { IfOk result (λ gone. gone.things ≡ (effect self.now.state (Change.DropDomain rows.now.domain)).ended) }
        ensures ascending { IfOk result (λ gone. IsAscending id_cmp (λ other. other) gone.ids) }
        ensures closed { IfOk result (λ gone. IsClosed self.now.state.rows.trusts gone.ids) }
        ensures left { IfOk result (λ gone. without_trusts gone.ids self.now.state.rows.trusts ≡ (effect self.now.state (Change.DropDomain rows.now.domain)).rows.trusts) }
    {
        domain_trusts(self.alloc, &self.tree, &self.people, &self.trusts, rows)
    }

    /// The trusts that go with a project, and all that ends with it.
    pub(crate) fn project_gone(&self, id: &Id) -> Result<TrustsGone, Memory>
        ensures things { IfOk result (λ gone. gone.things ≡ (effect self.now.state (Change.DropProject id.now)).ended) }
        ensures ascending { IfOk result (λ gone. IsAscending id_cmp (λ other. other) gone.ids) }
        ensures closed { IfOk result (λ gone. IsClosed self.now.state.rows.trusts gone.ids) }
        ensures left { IfOk result (λ gone. without_trusts gone.ids self.now.state.rows.trusts ≡ (effect self.now.state (Change.DropProject id.now)).rows.trusts) }
    {
        let what = Revoke::Project(*id);
        let first = one(self.alloc, Revoke::Project(*id))?;
        trusts_gone(&self.trusts, &Naming { what: &what }, first)
    }

    /// The trusts that go with a user, and all that ends with it.
    pub(crate) fn user_gone(&self, id: &Id) -> Result<TrustsGone, Memory>
        ensures things { IfOk result (λ gone. gone.things ≡ (effect self.now.state (Change.DropUser id.now)).ended) }
        ensures ascending { IfOk result (λ gone. IsAscending id_cmp (λ other. other) gone.ids) }
        ensures closed { IfOk result (λ gone. IsClosed self.now.state.rows.trusts gone.ids) }
        ensures left { IfOk result (λ gone. without_trusts gone.ids self.now.state.rows.trusts ≡ (effect self.now.state (Change.DropUser id.now)).rows.trusts) }
    {
        let what = Revoke::User(*id);
        let first = one(self.alloc, Revoke::User(*id))?;
        trusts_gone(&self.trusts, &Naming { what: &what }, first)
    }

    /// The trusts that go with a trust, and all that ends with it.
    pub(crate) fn trust_gone(&self, id: &Id) -> Result<TrustsGone, Memory>
        ensures things { IfOk result (λ gone. gone.things ≡ (effect self.now.state (Change.DropTrust id.now)).ended) }
        ensures ascending { IfOk result (λ gone. IsAscending id_cmp (λ other. other) gone.ids) }
        ensures closed { IfOk result (λ gone. IsClosed self.now.state.rows.trusts gone.ids) }
        ensures left { IfOk result (λ gone. without_trusts gone.ids self.now.state.rows.trusts ≡ (effect self.now.state (Change.DropTrust id.now)).rows.trusts) }
    {
        let what = Revoke::Trust(*id);
        let first = ListOf::new(self.alloc);
        trusts_gone(&self.trusts, &Naming { what: &what }, first)
    }

    /// The trusts that go with a role, and all that ends with it.
    pub(crate) fn role_gone(&self, id: &Id) -> Result<TrustsGone, Memory>
        ensures things { IfOk result (λ gone. gone.things ≡ (effect self.now.state (Change.DropRole id.now)).ended) }
        ensures ascending { IfOk result (λ gone. IsAscending id_cmp (λ other. other) gone.ids) }
        ensures closed { IfOk result (λ gone. IsClosed self.now.state.rows.trusts gone.ids) }
        ensures left { IfOk result (λ gone. without_trusts gone.ids self.now.state.rows.trusts ≡ (effect self.now.state (Change.DropRole id.now)).rows.trusts) }
    {
        let first = ListOf::new(self.alloc);
        trusts_gone(&self.trusts, &WithRole { role: id }, first)
    }
}
