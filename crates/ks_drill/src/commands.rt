//! The commands of a drill.
ghost use Rattle.std.specs.Prelude.{◌≡◌, IfOk, false};
ghost use Rattle.ks_machine.specs.declared.command.Command.TheVariants.{RevokeToken, Validate};
ghost use Rattle.ks_machine.specs.Ranges.{IsPassword};
ghost use Rattle.ks_drill.specs.Drill.{grant, log_in, new_project, new_user};
ghost use Rattle.ks_drill.specs.Scripts.{IsAskable};

use crate::opening::home;
use crate::words::numbered;
use ks_base::{Actor, Boxed, GrantRow, Id, Memory, Target, Text};
use ks_machine::{Command, LoginBody, Made, ProjectNamed, Proof, ScopeIn, UserNamed};
use std::alloc::Global;

/// The user logs in on the project.
#[tactic(auto, unfolding(ks_machine::specs::Actions::requirements))]
pub(crate) fn log_in(
    alloc: Global,
    user: Id,
    password: Text,
    project: Id,
) -> Result<Command, Memory>
    requires { IsPassword password }
    ensures made { IfOk result (λ made. made ≡ log_in user password project) }
    ensures askable { IfOk result IsAskable }
{
    let body = LoginBody {
        proof: Proof::Password(UserNamed::Id(user), password),
        scope: ScopeIn::Project(ProjectNamed::Id(project)),
    };
    Ok(Command::Login(Boxed::new(alloc, body)?))
}

#[tactic(auto, unfolding(ks_machine::specs::Actions::requirements))]
pub(crate) fn new_project(alloc: Global, i: u32) -> Result<Command, Memory>
    ensures made { IfOk result (λ made. made ≡ new_project i) }
    ensures askable { IfOk result IsAskable }
{
    let name = numbered(alloc, "p", u64::from(i))?;
    let made = Made::Project {
        id: None,
        name: Some(name),
        domain: Some(home()),
        parent: None,
        description: None,
        enabled: None,
    };
    Ok(Command::Create(Boxed::new(alloc, made)?))
}

#[tactic(auto, unfolding(ks_machine::specs::Actions::requirements))]
pub(crate) fn new_user(alloc: Global, i: u32) -> Result<Command, Memory>
    ensures made { IfOk result (λ made. made ≡ new_user i) }
    ensures askable { IfOk result IsAskable }
{
    let name = numbered(alloc, "u", u64::from(i))?;
    let password = numbered(alloc, "w", u64::from(i))?;
    let made = Made::User {
        id: None,
        name: Some(name),
        domain: Some(home()),
        password: Some(password),
        enabled: None,
        factors: None,
    };
    Ok(Command::Create(Boxed::new(alloc, made)?))
}

/// The user is given the role on the project.
#[tactic(auto, unfolding(ks_machine::specs::Actions::requirements))]
pub(crate) fn grant(user: Id, project: Id, role: Id) -> Command
    ensures made { result ≡ grant user project role }
    ensures askable { IsAskable result }
{
    Command::Grant(GrantRow {
        actor: Actor::User(user),
        target: Target::Project(project),
        inherited: false,
        role,
    })
}

#[tactic(auto, unfolding(ks_machine::specs::Actions::requirements))]
pub(crate) fn end_token() -> Command
    ensures made { result ≡ RevokeToken }
    ensures askable { IsAskable result }
{
    Command::RevokeToken
}

#[tactic(auto, unfolding(ks_machine::specs::Actions::requirements))]
pub(crate) fn validate() -> Command
    ensures made { result ≡ Validate false }
    ensures askable { IsAskable result }
{
    Command::Validate(false)
}
