//! How the rows of a domain go.
ghost use Rattle.std.specs.Prelude.{◌≡◌, ◌∷◌, ◌++◌, ◌&&◌, not, filter, map, IfOk};
ghost use Rattle.ks_base.specs.declared.events.Revoke.{Revoke};
ghost use Rattle.ks_base.specs.People.{group_ids, is_group_in, is_user_in, users_of};
ghost use Rattle.ks_base.specs.Tables.{id_cmp, IsAscending};
ghost use Rattle.ks_base.specs.Trees.{lies_in, projects_of};
ghost use Rattle.ks_base.specs.Trusts.{trusts_gone, trusts_left};
ghost use Rattle.ks_machine.specs.Changes.{is_actor_gone, is_left, is_target_gone};
ghost use Rattle.ks_state.specs.DomainRows.{AreOf, has_group, has_project, has_user, is_touched};
ghost use Rattle.ks_totp.specs.Factors.{of_users};
ghost use Rattle.ks_trust.specs.State.{without_trusts, IsClosed};

use crate::domain_rows::{DomainRows, OtherUsers};
use crate::trusts_gone::{TrustsGone, trusts_gone};
use ks_appcred::AppCreds;
use ks_assign::Grants;
use ks_base::Memory;
use ks_people::People;
use ks_totp::Factors;
use ks_tree::Tree;
use ks_trust::Trusts;
use std::alloc::Global;

/// The trusts that go with the domain, and all that ends with it.
pub(crate) fn domain_trusts(
    alloc: Global,
    tree: &Tree,
    people: &People,
    trusts: &Trusts,
    gone: &DomainRows,
) -> Result<TrustsGone, Memory>
    requires { AreOf gone.now tree.now people.now }
    ensures things { IfOk result (λ all. all.things ≡ (Revoke.Domain gone.now.domain ∷ (map (λ row. Revoke.Project row.id) (filter (lies_in gone.now.domain) tree.now.projects) ++ map (λ row. Revoke.User row.id) (filter (is_user_in gone.now.domain) people.now.users))) ++ map (λ trust. Revoke.Trust trust.id) (trusts_gone trusts.now (is_touched gone.now.domain tree.now people.now))) }
    ensures ascending { IfOk result (λ all. IsAscending id_cmp (λ id. id) all.ids) }
    ensures closed { IfOk result (λ all. IsClosed trusts.now all.ids) }
    ensures left { IfOk result (λ all. without_trusts all.ids trusts.now ≡ trusts_left trusts.now (is_touched gone.now.domain tree.now people.now)) }
{
    let _tree = tree;
    let _people = people;
    let first = gone.ended(alloc)?;
    trusts_gone(trusts, gone, first)
}

/// The domain's users and groups go, with all memberships of theirs. It takes no memory.
pub(crate) fn drop_people(people: &mut People, gone: &DomainRows)
    requires users { gone.now.users ≡ users_of gone.now.domain people.old }
    requires groups { gone.now.groups ≡ group_ids gone.now.domain people.old }
    ensures { people.new ≡ record {
      users = filter (λ row. not (is_user_in gone.now.domain row)) people.old.users;
      groups = filter (λ row. not (is_group_in gone.now.domain row)) people.old.groups;
      members = filter (is_left (has_user gone.now.domain people.old) (has_group gone.now.domain people.old)) people.old.members;
    } }
{
    people.keep_members(gone);
    people.keep_users(gone);
    people.keep_groups(gone);
}

/// The grants of the domain's users and groups, and those at the domain or its projects, go. It takes no memory.
pub(crate) fn drop_grants(grants: &mut Grants, tree: &Tree, people: &People, gone: &DomainRows)
    requires { AreOf gone.now tree.now people.now }
    ensures { grants.new ≡ filter (λ row. not (is_actor_gone (has_user gone.now.domain people.now) (has_group gone.now.domain people.now) row.actor) && not (is_target_gone (has_project gone.now.domain tree.now) gone.now.domain row.target)) grants.old }
{
    let _tree = tree;
    let _people = people;
    grants.keep(gone);
}

/// The credentials of the domain's users, and those on its projects, go. It takes no memory.
pub(crate) fn drop_creds(creds: &mut AppCreds, tree: &Tree, people: &People, gone: &DomainRows)
    requires { AreOf gone.now tree.now people.now }
    ensures { creds.new ≡ filter (λ row. not (has_user gone.now.domain people.now row.user) && not (has_project gone.now.domain tree.now row.project)) creds.old }
{
    let _tree = tree;
    let _people = people;
    creds.keep(gone);
}

/// The secrets and the rules of the domain's users go. It takes no memory.
pub(crate) fn drop_factors(factors: &mut Factors, people: &People, gone: &DomainRows)
    requires { gone.now.users ≡ users_of gone.now.domain people.now }
    ensures { factors.new.state ≡ of_users (λ user. not (has_user gone.now.domain people.now user)) factors.old.state }
{
    let _people = people;
    factors.keep_users(&OtherUsers { users: &gone.users });
}
