//! The scope that a login asks for (Identity API v3, authentication): what must stand there, and with which roles.
ghost use Rattle.std.specs.Prelude.{◌≡◌, IfOk, IsSome, Some};
ghost use Rattle.std.specs.Option.{option_copied};
ghost use Rattle.ks_auth.specs.Answers.{rows_told};
ghost use Rattle.ks_base.specs.Refusals.{fault_in};
ghost use Rattle.ks_base.specs.Rows.{trust_of, user_of};
ghost use Rattle.ks_base.specs.Trusts.{first_trustor};
ghost use Rattle.ks_machine.specs.Attempts.{blame, each, need, unless};
ghost use Rattle.ks_machine.specs.declared.cause.Cause.TheVariants as causes;
ghost use Rattle.ks_machine.specs.Login.{asks_nowhere, project_on, role_kept, scoped, scoped_by, to_cred, to_domain, to_project, to_system, to_trust, user_on, with_roles};
ghost use Rattle.ks_machine.specs.Validity.{has_cred_roles};
ghost use Rattle.ks_logins.specs.Logins.{AreStanding, role_held, scoped_of, shown_of};
ghost use Rattle.ks_checks.specs.declared.halt.Halt.TheVariants as halts;
ghost use Rattle.ks_checks.specs.Plans.{Gives, Passes};

use crate::bearers::Bearer;
use ks_auth::{
    Tables, acts_as, closure, has_cred_roles, is_domain_on, is_project_on, is_user_on, roles_at,
};
use ks_base::{AppCredRow, Id, IdList, ProjectRow, Target, TrustFault, TrustRow};
use ks_checks::Halt;
use ks_checks::checks::need;
use ks_checks::named::{domain_in, project_in};
use ks_machine::{Cause, ScopeIn, ScopeWhy};
use std::alloc::Global;

/// Where a token is for.
#[derive(Clone, Copy)]
pub enum TokenPlace<'a> {
    Unscoped,
    Domain(Id),
    Project(Id),
    /// The project of the trust.
    Trust(&'a TrustRow, Id),
    /// The whole system.
    System,
    /// The application credential, and its project.
    AppCred(Id, Id),
}

/// Whose token it is, where, and with which roles.
#[derive(Drop)]
pub struct TokenScope<'a> {
    pub user: Id,
    pub place: TokenPlace<'a>,
    pub roles: IdList,
}

fn refused(why: ScopeWhy) -> Halt
    ensures { result ≡ halts.Refused (causes.ScopeRefused why) }
{
    Halt::Refused(Cause::ScopeRefused(why))
}

/// The roles that a user has at a target, of which there must be some.
#[tactic(auto, unfolding(ks_machine::specs::Login::with_roles))]
fn with_roles(alloc: Global, tables: &Tables, user: &Id, at: &Target) -> Result<IdList, Halt>
    ensures { Gives (λ roles. roles) result (with_roles (rows_told tables.now) user.now at.now) }
{
    let roles = roles_at(alloc, tables, user, at)?;
    let has_some = !roles.as_slice().is_empty();
    need(has_some, Cause::ScopeRefused(ScopeWhy::NoRoles))?;
    Ok(roles)
}

/// A domain that stands and is enabled.
#[tactic(auto, unfolding(ks_machine::specs::Login::to_domain))]
fn to_domain<'a>(
    alloc: Global,
    tables: &Tables<'a>,
    user: &Id,
    named: Option<Id>,
) -> Result<TokenScope<'a>, Halt>
    requires { IsSome (user_of user.now tables.now.people.now.users) }
    ensures scope { Gives scoped_of result (to_domain (rows_told tables.now) user.now named) }
    ensures stands { IfOk result (λ scope. IsSome (user_of scope.user tables.now.people.now.users)) }
{
    let Some(domain) = named else {
        return Err(refused(ScopeWhy::Absent));
    };
    need(
        is_domain_on(tables, &domain),
        Cause::ScopeRefused(ScopeWhy::Off),
    )?;
    let roles = with_roles(alloc, tables, user, &Target::Domain(domain))?;
    Ok(TokenScope {
        user: *user,
        place: TokenPlace::Domain(domain),
        roles,
    })
}

/// A project that stands and is enabled.
#[tactic(auto, unfolding(ks_machine::specs::Login::project_on))]
fn project_on(tables: &Tables, named: Option<&ProjectRow>) -> Result<Id, Halt>
    ensures { Gives (λ id. id) result (project_on (rows_told tables.now) (option_copied named.entry)) }
{
    let Some(project) = named else {
        return Err(refused(ScopeWhy::Absent));
    };
    need(
        is_project_on(tables, &project.id),
        Cause::ScopeRefused(ScopeWhy::Off),
    )?;
    Ok(project.id)
}

#[tactic(auto, unfolding(ks_machine::specs::Login::to_project))]
fn to_project<'a>(
    alloc: Global,
    tables: &Tables<'a>,
    user: &Id,
    named: Option<&ProjectRow>,
) -> Result<TokenScope<'a>, Halt>
    requires { IsSome (user_of user.now tables.now.people.now.users) }
    ensures scope { Gives scoped_of result (to_project (rows_told tables.now) user.now (option_copied named.entry)) }
    ensures stands { IfOk result (λ scope. IsSome (user_of scope.user tables.now.people.now.users)) }
{
    let project = project_on(tables, named)?;
    let roles = with_roles(alloc, tables, user, &Target::Project(project))?;
    Ok(TokenScope {
        user: *user,
        place: TokenPlace::Project(project),
        roles,
    })
}

/// The whole system, which always stands.
#[tactic(auto, unfolding(ks_machine::specs::Login::to_system))]
fn to_system<'a>(alloc: Global, tables: &Tables<'a>, user: &Id) -> Result<TokenScope<'a>, Halt>
    requires { IsSome (user_of user.now tables.now.people.now.users) }
    ensures scope { Gives scoped_of result (to_system (rows_told tables.now) user.now) }
    ensures stands { IfOk result (λ scope. IsSome (user_of scope.user tables.now.people.now.users)) }
{
    let roles = with_roles(alloc, tables, user, &Target::System)?;
    Ok(TokenScope {
        user: *user,
        place: TokenPlace::System,
        roles,
    })
}

/// Goes on, unless the trust can't be used.
fn usable(checked: Result<(), TrustFault>) -> Result<(), Halt>
    ensures { Passes result (blame (λ fault. causes.Trust fault) (unless (fault_in checked))) }
{
    match checked {
        Ok(()) => Ok(()),
        Err(fault) => Err(Halt::Refused(Cause::Trust(fault))),
    }
}

/// Goes on where the user is enabled in an enabled domain.
fn user_on(tables: &Tables, id: &Id) -> Result<(), Halt>
    ensures on { Passes result (user_on (rows_told tables.now) id.now) }
    ensures stands { IfOk result (λ u. IsSome (user_of id.now tables.now.people.now.users)) }
{
    need(
        is_user_on(tables, id),
        Cause::Trust(TrustFault::UserOff(*id)),
    )
}

/// Goes on where the role is held.
fn role_held(held: &[Id], role: &Id) -> Result<(), Halt>
    ensures { Passes result (role_held held.now role.now) }
{
    need(
        held.contains(role),
        Cause::Trust(TrustFault::RoleLost(*role)),
    )
}

/// Goes on where each role is held.
pub fn roles_held(held: &[Id], roles: &[Id]) -> Result<(), Halt>
    ensures { Passes result (each (role_held held.now) roles.now) }
{
    for role in roles {
        role_held(held, role)?;
    }
    Ok(())
}

/// The first trustor of the chain of this trust.
fn first_of(tables: &Tables, id: &Id, trust: &TrustRow) -> Id
    requires { trust_of id.now tables.now.trusts.now ≡ Some trust.now }
    ensures { result ≡ first_trustor tables.now.trusts.now trust.now }
{
    match tables.trusts.first_trustor(id) {
        Some(first) => first,
        None => unreachable!(),
    }
}

/// Goes on where the first trustor has each role of the trust still, at the project of the trust.
fn roles_kept(alloc: Global, tables: &Tables, id: &Id, trust: &TrustRow) -> Result<(), Halt>
    requires { trust_of id.now tables.now.trusts.now ≡ Some trust.now }
    ensures { Passes result (each (role_kept (rows_told tables.now) trust.now) trust.now.roles) }
{
    let first = first_of(tables, id, trust);
    let held = roles_at(alloc, tables, &first, &Target::Project(trust.project))?;
    roles_held(held.as_slice(), trust.roles.as_slice())
}

/// The scope of a trust, whose users are enabled, whose project is, and whose roles the first trustor has still.
#[tactic(auto, unfolding(ks_machine::specs::Login::to_trust))]
fn to_trust<'a>(
    alloc: Global,
    tables: &Tables<'a>,
    moment: u64,
    user: &Id,
    id: &Id,
) -> Result<TokenScope<'a>, Halt>
    ensures scope { Gives scoped_of result (to_trust (rows_told tables.now) moment user.now id.now) }
    ensures stands { IfOk result (λ scope. IsSome (user_of scope.user tables.now.people.now.users)) }
{
    usable(tables.trusts.may_use(id, user, moment))?;
    let Some(trust) = tables.trusts.trust(id) else {
        return Err(Halt::Refused(Cause::Trust(TrustFault::Absent(*id))));
    };
    user_on(tables, &trust.trustor)?;
    user_on(tables, &trust.trustee)?;
    user_on(tables, &first_of(tables, id, trust))?;
    let project = project_on(tables, tables.tree.project(&trust.project))?;
    roles_kept(alloc, tables, id, trust)?;
    let roles = closure(tables, &trust.roles)?;
    Ok(TokenScope {
        user: *acts_as(trust),
        place: TokenPlace::Trust(trust, project),
        roles,
    })
}

/// The scope that a login asks for which shows no application credential.
#[tactic(auto, unfolding(ks_machine::specs::Login::scoped))]
fn scoped<'a>(
    alloc: Global,
    tables: &Tables<'a>,
    moment: u64,
    user: &Id,
    asked: &ScopeIn,
) -> Result<TokenScope<'a>, Halt>
    requires { IsSome (user_of user.now tables.now.people.now.users) }
    ensures scope { Gives scoped_of result (scoped (rows_told tables.now) moment user.now asked.now) }
    ensures stands { IfOk result (λ scope. IsSome (user_of scope.user tables.now.people.now.users)) }
{
    match asked {
        ScopeIn::Nothing | ScopeIn::Unscoped => Ok(TokenScope {
            user: *user,
            place: TokenPlace::Unscoped,
            roles: IdList::new(alloc),
        }),
        ScopeIn::Domain(named) => {
            let domain = domain_in(tables, named).map(|row| row.id);
            to_domain(alloc, tables, user, domain)
        }
        ScopeIn::Project(named) => to_project(alloc, tables, user, project_in(tables, named)),
        ScopeIn::System => to_system(alloc, tables, user),
        ScopeIn::Trust(id) => to_trust(alloc, tables, moment, user, id),
    }
}

/// Whether a login asks for no scope.
fn asks_nowhere(asked: &ScopeIn) -> bool
    ensures { result ≡ asks_nowhere asked.now }
{
    match asked {
        ScopeIn::Nothing => true,
        ScopeIn::Unscoped | ScopeIn::Domain(_) | ScopeIn::Project(_) => false,
        ScopeIn::System | ScopeIn::Trust(_) => false,
    }
}

/// Goes on where the credential's user has each role that it lists.
fn roles_had(alloc: Global, tables: &Tables, cred: &AppCredRow) -> Result<(), Halt>
    ensures { Passes result (need (has_cred_roles (rows_told tables.now) cred.now) (causes.ScopeRefused ScopeWhy.NoRoles)) }
{
    let holds = has_cred_roles(alloc, tables, cred)?;
    need(holds, Cause::ScopeRefused(ScopeWhy::NoRoles))
}

/// The project of an application credential, where its user has each role that it lists. No scope is to be asked for.
#[tactic(auto, unfolding(ks_machine::specs::Login::to_cred))]
fn to_cred<'a>(
    alloc: Global,
    tables: &Tables<'a>,
    cred: &AppCredRow,
    asked: &ScopeIn,
) -> Result<TokenScope<'a>, Halt>
    requires { IsSome (user_of cred.now.user tables.now.people.now.users) }
    ensures scope { Gives scoped_of result (to_cred (rows_told tables.now) cred.now asked.now) }
    ensures stands { IfOk result (λ scope. IsSome (user_of scope.user tables.now.people.now.users)) }
{
    need(asks_nowhere(asked), Cause::ScopeRefused(ScopeWhy::Absent))?;
    let project = project_on(tables, tables.tree.project(&cred.project))?;
    roles_had(alloc, tables, cred)?;
    let roles = closure(tables, &cred.roles)?;
    Ok(TokenScope {
        user: cred.user,
        place: TokenPlace::AppCred(cred.id, project),
        roles,
    })
}

/// The scope of a login of this bearer.
#[tactic(auto, unfolding(ks_machine::specs::Login::scoped_by))]
pub fn scoped_by<'a>(
    alloc: Global,
    tables: &Tables<'a>,
    moment: u64,
    who: &Bearer,
    asked: &ScopeIn,
) -> Result<TokenScope<'a>, Halt>
    requires { AreStanding tables.now.people.now.users who.now }
    ensures scope { Gives scoped_of result (scoped_by (rows_told tables.now) moment (shown_of who.now).user (shown_of who.now).credential asked.now) }
    ensures stands { IfOk result (λ scope. IsSome (user_of scope.user tables.now.people.now.users)) }
{
    match who.credential {
        Some(cred) => to_cred(alloc, tables, cred, asked),
        None => scoped(alloc, tables, moment, &who.user, asked),
    }
}
