//! Trusts: making one, and what is told of them (OS-TRUST).
ghost use Rattle.std.specs.Prelude.{◌≡◌, IfOk, IfSome, Err, Some, true, map, filter, length, nat_lt, codes};
ghost use Rattle.std.specs.Option.{option_copied};
ghost use Rattle.ks_auth.specs.Answers.{rows_told};
ghost use Rattle.ks_base.specs.declared.receipt.Drawn.TheVariants as drawns;
ghost use Rattle.ks_base.specs.Refusals.{fault_in};
ghost use Rattle.ks_base.specs.Rows.{has_id};
ghost use Rattle.ks_base.specs.Trusts.{creation_fault};
ghost use Rattle.ks_machine.specs.declared.body_out.BodyOut.TheVariants as bodies;
ghost use Rattle.ks_machine.specs.declared.change.Change.TheVariants as changed;
ghost use Rattle.ks_machine.specs.Outcomes.{changes};
ghost use Rattle.ks_machine.specs.Assignments.{agrees};
ghost use Rattle.ks_machine.specs.Attempts.{Go};
ghost use Rattle.ks_machine.specs.TrustCommands.{count_for, count_under, create_trust, delete_trust, get_trust, is_passed_on, is_trust_listed, list_trusts, may_count, needs, new_trust, parent_by, role_asked, roles_asked, roles_of_trust, roles_to_give, told_trust, unless_trust, unrestricted};
ghost use Rattle.ks_machine.specs.declared.cause.Cause.TheVariants as causes;
ghost use Rattle.ks_machine.specs.Tables.{standing_trust};
ghost use Rattle.ks_checks.specs.declared.halt.Halt.TheVariants as halts;
ghost use Rattle.ks_checks.specs.Checked.{after_trust};
ghost use Rattle.ks_delegations.specs.Listed.{IsOfAll};
ghost use Rattle.ks_checks.specs.Plans.{Gives, Passes, Plans, valid_of};

use ks_auth::{Tables, cred_in_payload, roles_to_give};
use ks_base::limits::REDELEGATIONS;
use ks_base::{
    Boxed, FieldList, Filter, Id, IdList, Kind, Memory, Revoke, RoleList, RoleRow, ShapeFault,
    Text, TrustFault, TrustRow,
};
use ks_checks::checks::{need, standing_project, standing_user};
use ks_checks::draws::made_id;
use ks_checks::filters::value_in;
use ks_checks::in_order::in_order;
use ks_checks::named::role_in;
use ks_checks::names::titled_roles;
use ks_checks::paths::joined;
use ks_checks::{Caller, Halt, Plan};
use ks_index::Rows;
use ks_machine::{BodyOut, Cause, Change, Named, Row, RowList, TrustBody};
use std::alloc::Global;

/// The trust with this id, which must stand.
fn standing_trust<'a>(tables: &Tables<'a>, id: &Id) -> Result<&'a TrustRow, Halt>
    ensures { Gives (λ row. row.now) result (standing_trust (rows_told tables.now) id.now) }
{
    match tables.trusts.trust(id) {
        Some(row) => Ok(row),
        None => Err(Halt::Refused(Cause::Absent(Kind::Trust, *id))),
    }
}

/// Goes on, unless the table of trusts refuses.
fn unless_trust(checked: Result<(), TrustFault>) -> Result<(), Halt>
    ensures { Passes result (unless_trust (fault_in checked)) }
{
    match &checked {
        Ok(()) => Ok(()),
        Err(fault) => Err(trust_halt(fault)),
    }
}

/// The refusal of the table as a cause.
fn trust_halt(fault: &TrustFault) -> Halt
    ensures { Passes (Err result) (unless_trust (Some fault.now)) }
{
    match fault {
        TrustFault::Memory => Halt::Memory,
        TrustFault::Full(kind) => Halt::Refused(Cause::Full(*kind)),
        TrustFault::IdTaken(id) => Halt::Refused(Cause::IdTaken(*id)),
        TrustFault::NotTrustor => refused(TrustFault::NotTrustor),
        TrustFault::NotParent => refused(TrustFault::NotParent),
        TrustFault::NoRoles => refused(TrustFault::NoRoles),
        TrustFault::DepthOut => refused(TrustFault::DepthOut),
        TrustFault::RoleNotInParent(id) => refused(TrustFault::RoleNotInParent(*id)),
        TrustFault::Impersonation => refused(TrustFault::Impersonation),
        TrustFault::UsesSet => refused(TrustFault::UsesSet),
        TrustFault::LaterThanParent => refused(TrustFault::LaterThanParent),
        TrustFault::RoleLost(id) => refused(TrustFault::RoleLost(*id)),
        TrustFault::Expired => refused(TrustFault::Expired),
        TrustFault::Absent(id) => refused(TrustFault::Absent(*id)),
        TrustFault::NotTrustee => refused(TrustFault::NotTrustee),
        TrustFault::Spent => refused(TrustFault::Spent),
        TrustFault::UserOff(id) => refused(TrustFault::UserOff(*id)),
    }
}

fn refused(why: TrustFault) -> Halt
    ensures { result ≡ halts.Refused (causes.Trust why) }
{
    Halt::Refused(Cause::Trust(why))
}

pub fn needs(holds: bool, why: TrustFault) -> Result<(), Halt>
    ensures { Passes result (needs holds why) }
{
    need(holds, Cause::Trust(why))
}

/// Goes on, unless the caller's token is of an application credential that is restricted.
pub fn unrestricted(tables: &Tables, caller: &Caller) -> Result<(), Halt>
    ensures { Passes result (unrestricted (rows_told tables.now) (valid_of caller.now)) }
{
    match cred_in_payload(tables, &caller.payload) {
        Some(cred) => need(cred.unrestricted, Cause::Prohibited),
        None => Ok(()),
    }
}

/// The caller's token is of the trust that is passed on, which the body may name; it passes on its own project.
fn is_passed_on(asked: &TrustBody, trust: &TrustRow) -> bool
    ensures { result ≡ is_passed_on asked.now trust.now }
{
    let is_named = match &asked.parent {
        Some(parent) => trust.id == *parent,
        None => true,
    };
    is_named && trust.project == asked.project
}

/// The parent of a new trust, where the caller's token is of a trust.
fn parent_by<'a>(
    tables: &Tables<'a>,
    asked: &TrustBody,
    trust: &Option<Id>,
) -> Result<Option<&'a TrustRow>, Halt>
    ensures { Gives (λ parent. option_copied parent) result (parent_by (rows_told tables.now) asked.now trust.now) }
{
    let Some(id) = trust else {
        need(asked.parent.is_none(), Cause::Trust(TrustFault::NotParent))?;
        return Ok(None);
    };
    let Some(parent) = tables.trusts.trust(id) else {
        return Err(Halt::Refused(Cause::Trust(TrustFault::NotParent)));
    };
    needs(is_passed_on(asked, parent), TrustFault::NotParent)?;
    Ok(Some(parent))
}

/// A role that the field of a body names.
fn role_asked<'a>(
    alloc: Global,
    tables: &Tables<'a>,
    field: &str,
    named: &Named,
) -> Result<&'a RoleRow, Halt>
    ensures { Gives (λ role. role.now) result (role_asked (rows_told tables.now) field.now named.now) }
{
    if let Some(role) = role_in(tables, named) {
        return Ok(role);
    }
    match named {
        Named::Id(id) => Err(Halt::Refused(Cause::Absent(Kind::Role, *id))),
        Named::Name(_) => {
            let path = Text::of(alloc, field)?;
            Err(Halt::Refused(Cause::Shape(ShapeFault::Range(path))))
        }
    }
}

/// Whether a body names a role.
fn has_roles(asked: &TrustBody) -> bool
    ensures { result ≡ nat_lt 0 (length asked.now.roles) }
{
    !asked.roles.as_slice().is_empty()
}

/// The roles that the field of a body names, in its order.
#[tactic(auto, unfolding(ks_machine::specs::TrustCommands::roles_asked))]
pub fn roles_asked(
    alloc: Global,
    tables: &Tables,
    field: &str,
    names: &[Named],
) -> Result<IdList, Halt>
    ensures { Gives (λ ids. ids) result (roles_asked (rows_told tables.now) field.now names.now) }
{
    let mut ids = IdList::new(alloc);
    for named in names {
        let role = role_asked(alloc, tables, field, named)?;
        ids.push(role.id)?;
    }
    Ok(ids)
}

/// The roles that the body of a trust names, in its order.
fn roles_of_body(alloc: Global, tables: &Tables, asked: &TrustBody) -> Result<IdList, Halt>
    ensures { Gives (λ ids. ids) result (roles_asked (rows_told tables.now) (codes "trust.roles") asked.now.roles) }
{
    roles_asked(alloc, tables, "trust.roles", asked.roles.as_slice())
}

/// How many trusts may follow below the new one.
fn count_for(asked: &TrustBody, parent: Option<&TrustRow>) -> u32
    ensures { result ≡ count_for asked.now (option_copied parent.entry) }
{
    if !asked.redelegate {
        return 0;
    }
    match parent {
        Some(above) => above.count.saturating_sub(1),
        None => asked.count.unwrap_or(REDELEGATIONS),
    }
}

/// The count that is asked for can be had.
fn may_count(asked: &TrustBody, parent: Option<&TrustRow>) -> bool
    ensures { result ≡ may_count asked.now (option_copied parent.entry) }
{
    match parent {
        Some(above) => count_under(asked, above),
        None => count_for(asked, parent) <= REDELEGATIONS,
    }
}

/// Under a parent the count that is given, if any, is the parent's less one.
fn count_under(asked: &TrustBody, parent: &TrustRow) -> bool
    ensures { result ≡ count_under asked.now parent.now }
{
    match asked.count {
        Some(count) => count == parent.count.saturating_sub(1),
        None => true,
    }
}

/// The new trust.
#[tactic(auto, unfolding(ks_machine::specs::TrustCommands::new_trust))]
fn new_trust(id: Id, asked: &TrustBody, parent: Option<&TrustRow>, roles: IdList) -> TrustRow
    ensures { result ≡ new_trust id asked.now (option_copied parent.entry) roles }
{
    TrustRow {
        id,
        trustor: asked.trustor,
        trustee: asked.trustee,
        project: asked.project,
        roles,
        impersonation: asked.impersonation,
        expires: asked.expires.or(parent.and_then(|above| above.expires)),
        remaining: asked.remaining,
        count: count_for(asked, parent),
        parent: parent.map(|above| above.id),
    }
}

/// What is told of a trust.
fn told_trust(alloc: Global, tables: &Tables, trust: &TrustRow) -> Result<Row, Memory>
    ensures { IfOk result (λ row. row ≡ told_trust (rows_told tables.now) trust.now) }
{
    let roles = titled_roles(alloc, tables, trust.roles.as_slice())?;
    Ok(Row::Trust(trust.copy()?, roles))
}

/// Puts the new trust, unless the table refuses.
fn put_trust(alloc: Global, tables: &Tables, moment: u64, new: TrustRow) -> Result<Plan, Halt>
    ensures { Plans result (after_trust (creation_fault tables.now.trusts.now (roles_to_give (rows_told tables.now) new) moment new) (changes (changed.PutTrust new) (bodies.One (told_trust (rows_told tables.now) new) true))) }
{
    let held = roles_to_give(alloc, tables, &new)?;
    unless_trust(tables.trusts.may_create(&new, &held, moment))?;
    let told = BodyOut::one(alloc, told_trust(alloc, tables, &new)?, true)?;
    Ok(Plan::changes(Change::PutTrust(new), told))
}

/// A trust that the caller gives. Its roles are in the order of their ids, each once.
#[inline(never)]
#[tactic(auto, unfolding(ks_machine::specs::TrustCommands::create_trust))]
pub fn create_trust(
    alloc: Global,
    tables: &Tables,
    moment: u64,
    drawn: &[u8; 64],
    caller: &Caller,
    asked: &TrustBody,
) -> Result<Plan, Halt>
    ensures { Plans result (create_trust (rows_told tables.now) moment (drawns.Bytes drawn.now) (valid_of caller.now) asked.now) }
{
    unrestricted(tables, caller)?;
    needs(caller.payload.user == asked.trustor, TrustFault::NotTrustor)?;
    let _trustee = standing_user(tables, &asked.trustee)?;
    let _project = standing_project(tables, &asked.project)?;
    let parent = parent_by(tables, asked, &caller.payload.trust)?;
    needs(has_roles(asked), TrustFault::NoRoles)?;
    let roles = roles_of_body(alloc, tables, asked)?;
    needs(may_count(asked, parent), TrustFault::DepthOut)?;
    let new = new_trust(
        made_id(drawn),
        asked,
        parent,
        in_order(alloc, roles.as_slice())?,
    );
    put_trust(alloc, tables, moment, new)
}

/// Whether a filter is not given, or is this id.
fn agrees(filters: &FieldList, name: &str, id: &Id) -> bool
    ensures { result ≡ agrees filters.now name.now (Some id.now) }
{
    match value_in(filters, name) {
        Some(wanted) => wanted.as_slice() == id.as_slice(),
        None => true,
    }
}

fn is_trust_listed(filters: &FieldList, trust: &TrustRow) -> bool
    ensures { result ≡ is_trust_listed filters.now trust.now }
{
    agrees(filters, "trustor_user_id", &trust.trustor)
        && agrees(filters, "trustee_user_id", &trust.trustee)
}

/// The trusts that pass the filters.
fn trusts_listed(
    alloc: Global,
    tables: &Tables,
    filters: &FieldList,
    trusts: &[Boxed<TrustRow>],
) -> Result<RowList, Memory>
    ensures { IfOk result (λ rows. rows ≡ map (told_trust (rows_told tables.now)) (filter (is_trust_listed filters.now) trusts.now)) }
{
    let mut rows = RowList::new(alloc);
    for trust in trusts {
        let trust = trust.get();
        if is_trust_listed(filters, trust) {
            rows.push(told_trust(alloc, tables, trust)?)?;
        }
    }
    Ok(rows)
}

/// The user whom each trust that passes the filters has as its trustor or its trustee, if they name one.
fn user_asked(filters: &FieldList) -> Option<Id>
    ensures { IfSome result (λ user. IsOfAll (is_trust_listed filters.now) user) }
{
    let wanted = match value_in(filters, "trustor_user_id") {
        Some(trustor) => trustor,
        None => value_in(filters, "trustee_user_id")?,
    };
    Id::read(wanted.as_slice()).ok()
}

/// The trusts that pass the filters, all of which are this user's. No other trust is looked at.
fn trusts_of_user(
    alloc: Global,
    tables: &Tables,
    filters: &FieldList,
    user: &Id,
) -> Result<RowList, Memory>
    requires { IsOfAll (is_trust_listed filters.now) user.now }
    ensures { IfOk result (λ rows. rows ≡ map (told_trust (rows_told tables.now)) (filter (is_trust_listed filters.now) tables.now.trusts.now)) }
{
    let ids = tables.trusts.ids_naming(&Revoke::User(*user))?;
    let mut rows = RowList::new(alloc);
    for id in ids.as_slice() {
        let Some(trust) = tables.trusts.trust(id) else {
            unreachable!()
        };
        if is_trust_listed(filters, trust) {
            rows.push(told_trust(alloc, tables, trust)?)?;
        }
    }
    Ok(rows)
}

/// The trusts that pass the filters.
fn trusts_asked(alloc: Global, tables: &Tables, filters: &FieldList) -> Result<RowList, Memory>
    ensures { IfOk result (λ rows. rows ≡ map (told_trust (rows_told tables.now)) (filter (is_trust_listed filters.now) tables.now.trusts.now)) }
{
    match user_asked(filters) {
        Some(user) => trusts_of_user(alloc, tables, filters, &user),
        None => trusts_listed(alloc, tables, filters, tables.trusts.rows()),
    }
}

/// The trusts, or those of one trustor, one trustee or both.
#[inline(never)]
#[tactic(auto, unfolding(ks_machine::specs::TrustCommands::list_trusts))]
pub fn list_trusts(alloc: Global, tables: &Tables, filters: &Filter) -> Result<Plan, Halt>
    ensures { Plans result (Go (list_trusts (rows_told tables.now) filters.now)) }
{
    let rows = trusts_asked(alloc, tables, &filters.fields)?;
    let path = Text::of(alloc, "/v3/OS-TRUST/trusts")?;
    Ok(Plan::tells(BodyOut::Trusts(rows, path)))
}

/// One trust.
#[inline(never)]
#[tactic(auto, unfolding(ks_machine::specs::TrustCommands::get_trust))]
pub fn get_trust(alloc: Global, tables: &Tables, id: &Id) -> Result<Plan, Halt>
    ensures { Plans result (get_trust (rows_told tables.now) id.now) }
{
    let trust = standing_trust(tables, id)?;
    let told = told_trust(alloc, tables, trust)?;
    Ok(Plan::tells(BodyOut::one(alloc, told, false)?))
}

/// Ends a trust.
#[inline(never)]
#[tactic(auto, unfolding(ks_machine::specs::TrustCommands::delete_trust))]
pub fn delete_trust(tables: &Tables, id: &Id) -> Result<Plan, Halt>
    ensures { Plans result (delete_trust (rows_told tables.now) id.now) }
{
    let _trust = standing_trust(tables, id)?;
    Ok(Plan::changes(Change::DropTrust(*id), BodyOut::Nothing))
}

/// Whether the id is one of these.
fn has_id(ids: &IdList, id: &Id) -> bool
    ensures { result ≡ has_id ids.now id.now }
{
    ids.as_slice().contains(id)
}

/// The standing roles among these, in their order.
fn roles_among(alloc: Global, rows: Rows<'_, RoleRow>, ids: &IdList) -> Result<RoleList, Memory>
    ensures { IfOk result (λ roles. roles ≡ filter (λ role. has_id ids.now role.id) rows.entry) }
{
    let mut roles = RoleList::new(alloc);
    for role in rows {
        if has_id(ids, &role.id) {
            roles.push(role.copy()?)?;
        }
    }
    Ok(roles)
}

/// The roles that a trust gives, in the order of their ids.
#[inline(never)]
#[tactic(auto, unfolding(ks_machine::specs::TrustCommands::roles_of_trust))]
pub fn roles_of_trust(alloc: Global, tables: &Tables, id: &Id) -> Result<Plan, Halt>
    ensures { Plans result (roles_of_trust (rows_told tables.now) id.now) }
{
    let trust = standing_trust(tables, id)?;
    let roles = roles_among(alloc, tables.roles.roles(), &trust.roles)?;
    let path = joined(alloc, "/v3/OS-TRUST/trusts/", id.as_str(), "/roles")?;
    Ok(Plan::tells(BodyOut::TrustRoles(roles, path)))
}
