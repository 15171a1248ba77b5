//! Memberships and implications (Identity API v3). A row that stands is no change and no refusal.
ghost use Rattle.std.specs.Prelude.{◌≡◌, filter, map, IfOk};
ghost use Rattle.ks_auth.specs.Answers.{rows_told};
ghost use Rattle.ks_base.specs.Tables.{id_cmp, IsAscending};
ghost use Rattle.ks_base.specs.Rows.{has_id};
ghost use Rattle.ks_machine.specs.Members.{list_groups_of, implication, implied, implies, imply, is_implied, is_in, join, leave, list_members_of, told_inference, unimply, unless_standing};
ghost use Rattle.ks_machine.specs.Effective.{is_member};
ghost use Rattle.ks_checks.specs.Plans.{Passes, Plans, outcome_of};

use ks_auth::Tables;
use ks_base::{Boxed, Id, ImplyRow, MemberRow, Memory};
use ks_checks::checks::{row, standing_group, standing_role, standing_user};
use ks_checks::names::{titled_role, titled_roles};
use ks_checks::paths::joined;
use ks_checks::standing::{is_implication, is_joined};
use ks_checks::{Halt, Plan};
use ks_machine::{BodyOut, Change, Row, RowKind, RowList};
use std::alloc::Global;

/// A row that stands is no change.
pub fn unless_standing(stands: bool, new: Change, told: BodyOut) -> Plan
    ensures { outcome_of result ≡ unless_standing stands new told }
{
    if stands {
        Plan::tells(told)
    } else {
        Plan::changes(new, told)
    }
}

/// The rows of the groups with these ids, each found by its id.
fn groups_among(alloc: Global, tables: &Tables, ids: &[Id]) -> Result<RowList, Memory>
    requires { IsAscending id_cmp (λ next. next) ids.now }
    ensures { IfOk result (λ rows. rows ≡ map (λ found. Row.Group found) (filter (λ group. has_id ids.now group.id) tables.now.people.now.groups)) }
{
    let mut rows = RowList::new(alloc);
    for id in ids {
        let Some(group) = tables.people.group(id) else {
            continue;
        };
        rows.push(Row::Group(group.copy()?))?;
    }
    Ok(rows)
}

/// The rows of the users with these ids, each found by its id.
fn users_among(alloc: Global, tables: &Tables, ids: &[Id]) -> Result<RowList, Memory>
    requires { IsAscending id_cmp (λ next. next) ids.now }
    ensures { IfOk result (λ rows. rows ≡ map (λ found. Row.User found) (filter (λ user. has_id ids.now user.id) tables.now.people.now.users)) }
{
    let mut rows = RowList::new(alloc);
    for id in ids {
        let Some(user) = tables.people.user(id) else {
            continue;
        };
        rows.push(Row::User(user.copy()?))?;
    }
    Ok(rows)
}

/// The rows of the groups that the user is in.
fn groups_found(alloc: Global, tables: &Tables, user: &Id) -> Result<RowList, Memory>
    ensures { IfOk result (λ rows. rows ≡ map (λ found. Row.Group found) (filter (λ group. is_member tables.now.people.now.members group.id user.now) tables.now.people.now.groups)) }
{
    let ids = tables.people.groups_of(user)?;
    groups_among(alloc, tables, ids.as_slice())
}

/// The rows of the users in the group.
fn users_found(alloc: Global, tables: &Tables, group: &Id) -> Result<RowList, Memory>
    ensures { IfOk result (λ rows. rows ≡ map (λ found. Row.User found) (filter (λ user. is_member tables.now.people.now.members group.now user.id) tables.now.people.now.users)) }
{
    let ids = tables.people.members_of(group)?;
    users_among(alloc, tables, ids.as_slice())
}

/// The groups that the user is in.
#[inline(never)]
#[tactic(auto, unfolding(ks_machine::specs::Members::list_groups_of))]
pub fn groups_of(alloc: Global, tables: &Tables, user: &Id) -> Result<Plan, Halt>
    ensures { Plans result (list_groups_of (rows_told tables.now) user.now) }
{
    let _user = standing_user(tables, user)?;
    let rows = groups_found(alloc, tables, user)?;
    let path = joined(alloc, "/v3/users/", user.as_str(), "/groups")?;
    Ok(Plan::tells(BodyOut::Many(RowKind::Group, rows, path)))
}

/// The users in the group.
#[inline(never)]
#[tactic(auto, unfolding(ks_machine::specs::Members::list_members_of))]
pub fn members_of(alloc: Global, tables: &Tables, group: &Id) -> Result<Plan, Halt>
    ensures { Plans result (list_members_of (rows_told tables.now) group.now) }
{
    let _group = standing_group(tables, group)?;
    let rows = users_found(alloc, tables, group)?;
    let path = joined(alloc, "/v3/groups/", group.as_str(), "/users")?;
    Ok(Plan::tells(BodyOut::Many(RowKind::User, rows, path)))
}

#[inline(never)]
#[tactic(auto, unfolding(ks_machine::specs::Members::join))]
pub fn join(tables: &Tables, member: &MemberRow) -> Result<Plan, Halt>
    ensures { Plans result (join (rows_told tables.now) member.now) }
{
    row(tables.people.may_join(member))?;
    let stands = is_joined(tables.people, member);
    Ok(unless_standing(stands, Change::Join(*member), BodyOut::Nothing))
}

#[inline(never)]
#[tactic(auto, unfolding(ks_machine::specs::Members::is_in))]
pub fn is_in(tables: &Tables, member: &MemberRow) -> Result<Plan, Halt>
    ensures { Plans result (is_in (rows_told tables.now) member.now) }
{
    row(tables.people.may_leave(member))?;
    Ok(Plan::tells(BodyOut::Nothing))
}

#[inline(never)]
#[tactic(auto, unfolding(ks_machine::specs::Members::leave))]
pub fn leave(tables: &Tables, member: &MemberRow) -> Result<Plan, Halt>
    ensures { Plans result (leave (rows_told tables.now) member.now) }
{
    let _told = is_in(tables, member)?;
    Ok(Plan::changes(Change::Leave(*member), BodyOut::Nothing))
}

/// The roles that this one implies directly.
#[inline(never)]
#[tactic(auto, unfolding(ks_machine::specs::Members::implied))]
pub fn implied(alloc: Global, tables: &Tables, prior: &Id) -> Result<Plan, Halt>
    ensures { Plans result (implied (rows_told tables.now) prior.now) }
{
    let _role = standing_role(tables, prior)?;
    let ids = tables.roles.implied_by(prior)?;
    let all = titled_roles(alloc, tables, ids.as_slice())?;
    let one = titled_role(alloc, tables, prior)?;
    Ok(Plan::tells(BodyOut::Inferences(one, all)))
}

/// What is told of one implication.
fn told_inference(
    alloc: Global,
    tables: &Tables,
    inference: &ImplyRow,
    made: bool,
) -> Result<BodyOut, Memory>
    ensures { IfOk result (λ told. told ≡ told_inference (rows_told tables.now) inference.now made) }
{
    let prior = titled_role(alloc, tables, &inference.prior)?;
    let implied = titled_role(alloc, tables, &inference.implied)?;
    Ok(BodyOut::Inference(Boxed::new(alloc, prior)?, Boxed::new(alloc, implied)?, made))
}

#[inline(never)]
#[tactic(auto, unfolding(ks_machine::specs::Members::imply))]
pub fn imply(alloc: Global, tables: &Tables, inference: &ImplyRow) -> Result<Plan, Halt>
    ensures { Plans result (imply (rows_told tables.now) inference.now) }
{
    row(tables.roles.may_imply(inference))?;
    let stands = is_implication(tables.roles, inference);
    let told = told_inference(alloc, tables, inference, true)?;
    Ok(unless_standing(stands, Change::Imply(*inference), told))
}

/// Goes on where the implication stands.
fn implies(tables: &Tables, inference: &ImplyRow) -> Result<(), Halt>
    ensures { Passes result (implies (rows_told tables.now) inference.now) }
{
    row(tables.roles.may_unimply(inference))
}

#[inline(never)]
#[tactic(auto, unfolding(ks_machine::specs::Members::implication))]
pub fn implication(alloc: Global, tables: &Tables, inference: &ImplyRow) -> Result<Plan, Halt>
    ensures { Plans result (implication (rows_told tables.now) inference.now) }
{
    implies(tables, inference)?;
    let told = told_inference(alloc, tables, inference, false)?;
    Ok(Plan::tells(told))
}

#[inline(never)]
#[tactic(auto, unfolding(ks_machine::specs::Members::is_implied))]
pub fn is_implied(tables: &Tables, inference: &ImplyRow) -> Result<Plan, Halt>
    ensures { Plans result (is_implied (rows_told tables.now) inference.now) }
{
    implies(tables, inference)?;
    Ok(Plan::tells(BodyOut::Nothing))
}

#[inline(never)]
#[tactic(auto, unfolding(ks_machine::specs::Members::unimply))]
pub fn unimply(tables: &Tables, inference: &ImplyRow) -> Result<Plan, Halt>
    ensures { Plans result (unimply (rows_told tables.now) inference.now) }
{
    implies(tables, inference)?;
    Ok(Plan::changes(Change::Unimply(*inference), BodyOut::Nothing))
}
