//! The command that a request makes of what its route asks for.
ghost use Rattle.std.specs.Prelude.{◌≡◌, true, false, IfOk};
ghost use Rattle.std.specs.Option.{option_copied};
ghost use Rattle.ks_machine.specs.declared.command.Command.TheVariants as commands;
ghost use Rattle.ks_machine.specs.Targets.{catalog_kind, filter_names};
ghost use Rattle.ks_shape.specs.Bodies.{body_of, catalog_body_of};
ghost use Rattle.ks_shape.specs.declared.form.Form.TheVariants as forms;
ghost use Rattle.ks_routes.specs.Asked.{about_token, actor_of, app_cred_by, asked, assignments_by, both, catalog_by, grant_in, grants_in, implication_in, login_by, made_by, member_in, pair_in, password_by, read_by, routed_over, secret_by, target_ids, target_of, token_lacking, trust_by, unless_lacking};
ghost use Rattle.ks_routes.specs.Queries.{allows_expired, assignment_filters as assignment_names, filter_in, trust_filters as trust_names};
ghost use Rattle.ks_routes.specs.steps.Reading.{IsAsked, unread_of};
ghost use Rattle.ks_routes.specs.Routes.{Answers};

use crate::action::{Action, ActorKind, GrantRoute, TargetKind};
use crate::captured::Captured;
use crate::filters::{assignment_filters, trust_filters};
use crate::query::{allows_expired, filter_in};
use crate::routed::Routed;
use ks_base::{
    Actor, CatalogKind, GrantRow, Id, ImplyRow, MemberRow, Memory, ShapeFault, ShapeRefusal,
    Target, Text,
};
use ks_http::Request;
use ks_machine::{Command, MadeKind, RowKind, user_lacking};
use ks_shape::{BodyIn, Form, read_body, read_catalog_body};
use std::alloc::Global;

fn actor(kind: ActorKind, id: Id) -> Actor
    ensures { result ≡ actor_of kind id }
{
    match kind {
        ActorKind::User => Actor::User(id),
        ActorKind::Group => Actor::Group(id),
    }
}

/// The target of a path; none where its id is lacking.
fn target(kind: TargetKind, ids: &Captured) -> Option<Target>
    ensures { result ≡ target_of kind ids.now }
{
    match kind {
        TargetKind::System => Some(Target::System),
        TargetKind::Project => ids.at(0).map(|id| Target::Project(id)),
        TargetKind::Domain => ids.at(0).map(|id| Target::Domain(id)),
    }
}

/// How many ids name the target, which stand before that of the actor.
fn target_ids(kind: TargetKind) -> usize
    ensures { result ≡ target_ids kind }
{
    match kind {
        TargetKind::System => 0,
        TargetKind::Project | TargetKind::Domain => 1,
    }
}

/// Both, where both are there.
fn both<A: Drop, B: Drop>(first: Option<A>, second: Option<B>) -> Option<(A, B)>
    ensures { result ≡ both first second }
{
    match (first, second) {
        (Some(a), Some(b)) => Some((a, b)),
        _ => None,
    }
}

/// The two ids of a path.
fn pair(ids: &Captured) -> Option<(Id, Id)>
    ensures { result ≡ pair_in ids.now }
{
    both(ids.at(0), ids.at(1))
}

fn member(ids: &Captured) -> Option<MemberRow>
    ensures { result ≡ member_in ids.now }
{
    let (group, user) = pair(ids)?;
    Some(MemberRow { group, user })
}

fn implication(ids: &Captured) -> Option<ImplyRow>
    ensures { result ≡ implication_in ids.now }
{
    let (prior, implied) = pair(ids)?;
    Some(ImplyRow { prior, implied })
}

/// Whose grants the path is about, and where.
fn grants(route: GrantRoute, ids: &Captured) -> Option<(Actor, Target)>
    ensures { result ≡ grants_in route ids.now }
{
    let who = ids
        .at(target_ids(route.target))
        .map(|id| actor(route.actor, id));
    both(who, target(route.target, ids))
}

/// The grant that the path names.
fn grant(route: GrantRoute, ids: &Captured) -> Option<GrantRow>
    ensures { result ≡ grant_in route ids.now }
{
    let role = ids.at(target_ids(route.target) + 1);
    let ((actor, target), role) = both(grants(route, ids), role)?;
    Some(GrantRow {
        actor,
        target,
        inherited: route.inherited,
        role,
    })
}

/// The command, where there is one.
fn over(command: Option<Command>) -> Routed
    ensures { result ≡ routed_over command }
{
    match command {
        Some(command) => Routed::Command(command),
        None => Routed::NoRoute,
    }
}

/// What could not be read of a body.
fn unread(refusal: ShapeRefusal) -> Routed
    ensures { result ≡ unread_of refusal }
{
    match refusal {
        ShapeRefusal::Shape(fault) => Routed::Refused(fault),
        ShapeRefusal::Memory => Routed::Memory,
    }
}

fn login(alloc: Global, request: &Request) -> Routed
    ensures { Answers (read_by login_by (body_of forms.Login request.now.body)) result }
{
    match read_body(alloc, Form::Login, request.body.as_slice()) {
        Ok(BodyIn::Login(login)) => Routed::Command(Command::Login(login)),
        Ok(_) => Routed::NoRoute,
        Err(refusal) => unread(refusal),
    }
}

fn create(alloc: Global, kind: MadeKind, request: &Request) -> Routed
    ensures { Answers (read_by (made_by (λ made. commands.Create made)) (body_of (forms.Made kind true) request.now.body)) result }
{
    match read_body(alloc, Form::Made(kind, true), request.body.as_slice()) {
        Ok(BodyIn::Made(made)) => Routed::Command(Command::Create(made)),
        Ok(_) => Routed::NoRoute,
        Err(refusal) => unread(refusal),
    }
}

fn update(alloc: Global, kind: MadeKind, id: Id, request: &Request) -> Routed
    ensures { Answers (read_by (made_by (λ made. commands.Update id made)) (body_of (forms.Made kind false) request.now.body)) result }
{
    match read_body(alloc, Form::Made(kind, false), request.body.as_slice()) {
        Ok(BodyIn::Made(made)) => Routed::Command(Command::Update(id, made)),
        Ok(_) => Routed::NoRoute,
        Err(refusal) => unread(refusal),
    }
}

fn change_password(alloc: Global, user: Id, request: &Request) -> Routed
    ensures { Answers (read_by (password_by user) (body_of forms.Password request.now.body)) result }
{
    match read_body(alloc, Form::Password, request.body.as_slice()) {
        Ok(BodyIn::Password(original, password)) => {
            Routed::Command(Command::ChangePassword(user, original, password))
        }
        Ok(_) => Routed::NoRoute,
        Err(refusal) => unread(refusal),
    }
}

fn create_trust(alloc: Global, request: &Request) -> Routed
    ensures { Answers (read_by trust_by (body_of forms.Trust request.now.body)) result }
{
    match read_body(alloc, Form::Trust, request.body.as_slice()) {
        Ok(BodyIn::Trust(trust)) => Routed::Command(Command::CreateTrust(trust)),
        Ok(_) => Routed::NoRoute,
        Err(refusal) => unread(refusal),
    }
}

fn create_app_cred(alloc: Global, user: Id, request: &Request) -> Routed
    ensures { Answers (read_by (app_cred_by user) (body_of forms.AppCred request.now.body)) result }
{
    match read_body(alloc, Form::AppCred, request.body.as_slice()) {
        Ok(BodyIn::AppCred(cred)) => Routed::Command(Command::CreateAppCred(user, cred)),
        Ok(_) => Routed::NoRoute,
        Err(refusal) => unread(refusal),
    }
}

fn create_secret(alloc: Global, request: &Request) -> Routed
    ensures { Answers (read_by secret_by (body_of forms.Secret request.now.body)) result }
{
    match read_body(alloc, Form::Secret, request.body.as_slice()) {
        Ok(BodyIn::Secret(secret)) => Routed::Command(Command::CreateSecret(secret)),
        Ok(_) => Routed::NoRoute,
        Err(refusal) => unread(refusal),
    }
}

fn create_catalog(alloc: Global, kind: CatalogKind, request: &Request) -> Routed
    ensures { Answers (read_by (catalog_by (λ row. commands.CreateCatalog row)) (catalog_body_of kind true request.now.body)) result }
{
    match read_catalog_body(alloc, kind, true, request.body.as_slice()) {
        Ok(row) => Routed::Command(Command::CreateCatalog(row)),
        Err(refusal) => unread(refusal),
    }
}

fn update_catalog(alloc: Global, kind: CatalogKind, id: Id, request: &Request) -> Routed
    ensures { Answers (read_by (catalog_by (λ row. commands.UpdateCatalog id row)) (catalog_body_of kind false request.now.body)) result }
{
    match read_catalog_body(alloc, kind, false, request.body.as_slice()) {
        Ok(row) => Routed::Command(Command::UpdateCatalog(id, row)),
        Err(refusal) => unread(refusal),
    }
}

/// The listing of a kind that the query asks for.
fn list(alloc: Global, kind: RowKind, request: &Request) -> Result<Command, Memory>
    ensures { IfOk result (λ command. command ≡ commands.List kind (filter_in (filter_names kind) request.now.query)) }
{
    let filter = filter_in(alloc, kind.filter_names(), request.query.as_slice())?;
    Ok(Command::List(kind, filter))
}

/// The listing of a kind of the catalog that the query asks for.
fn list_catalog(alloc: Global, kind: CatalogKind, request: &Request) -> Result<Command, Memory>
    ensures { IfOk result (λ command. command ≡ commands.ListCatalog kind (filter_in (filter_names (catalog_kind kind)) request.now.query)) }
{
    let names = RowKind::of_catalog(kind).filter_names();
    let filter = filter_in(alloc, names, request.query.as_slice())?;
    Ok(Command::ListCatalog(kind, filter))
}

/// The command, or what its request lacks.
fn unless_lacking(alloc: Global, lacking: Option<&str>, command: Command) -> Routed
    ensures { Answers (unless_lacking (option_copied lacking.entry) command) result }
{
    let Some(name) = lacking else {
        return Routed::Command(command);
    };
    match Text::of(alloc, name) {
        Ok(name) => Routed::Refused(ShapeFault::Missing(name)),
        Err(Memory) => Routed::Memory,
    }
}

/// The listing that the query asks for, which names the user where it asks for effective roles.
fn assignments(alloc: Global, request: &Request) -> Routed
    ensures { Answers (assignments_by (filter_in assignment_names request.now.query)) result }
{
    match filter_in(alloc, assignment_filters(), request.query.as_slice()) {
        Ok(filter) => {
            let lacking = user_lacking(&filter.fields);
            unless_lacking(alloc, lacking, Command::Assignments(filter))
        }
        Err(Memory) => Routed::Memory,
    }
}

fn trusts(alloc: Global, request: &Request) -> Result<Command, Memory>
    ensures { IfOk result (λ command. command ≡ commands.Trusts (filter_in trust_names request.now.query)) }
{
    let filter = filter_in(alloc, trust_filters(), request.query.as_slice())?;
    Ok(Command::Trusts(filter))
}

/// The field that a request about a token lacks.
fn token_lacking(subject: &Option<Text>) -> Option<&'static str>
    ensures { option_copied result ≡ token_lacking subject.now }
{
    match subject {
        Some(_) => None,
        None => Some("X-Subject-Token"),
    }
}

/// A command about the token that the request is to name.
fn about_token(alloc: Global, request: &Request, command: Command) -> Routed
    ensures { Answers (about_token request.now command) result }
{
    unless_lacking(alloc, token_lacking(&request.subject), command)
}

fn validate(alloc: Global, request: &Request) -> Routed
    ensures { Answers (about_token request.now (commands.Validate (allows_expired request.now.query))) result }
{
    match allows_expired(alloc, request.query.as_slice()) {
        Ok(late) => about_token(alloc, request, Command::Validate(late)),
        Err(Memory) => Routed::Memory,
    }
}

fn check(alloc: Global, request: &Request) -> Routed
    ensures { Answers (about_token request.now (commands.Check (allows_expired request.now.query))) result }
{
    match allows_expired(alloc, request.query.as_slice()) {
        Ok(late) => about_token(alloc, request, Command::Check(late)),
        Err(Memory) => Routed::Memory,
    }
}

/// The command, or want of memory for it.
fn asked_of(command: Result<Command, Memory>) -> Routed
    ensures { IsAsked command result }
{
    match command {
        Ok(command) => Routed::Command(command),
        Err(Memory) => Routed::Memory,
    }
}

impl Action {
    /// The command that the request makes of the action, where its path has these ids; or the first fault of its body, or what
    /// it lacks: its token, or the user of a listing of effective roles.
    #[tactic(auto, unfolding(crate::specs::Asked::asked))]
    pub fn command(self, alloc: Global, ids: &Captured, request: &Request) -> Routed
        ensures { Answers (asked self ids.now request.now) result }
    {
        match self {
            Action::Version => Routed::Command(Command::Version),
            Action::Versions => Routed::Command(Command::Versions),
            Action::Login => login(alloc, request),
            Action::Validate => validate(alloc, request),
            Action::Check => check(alloc, request),
            Action::RevokeToken => about_token(alloc, request, Command::RevokeToken),
            Action::Create(kind) => create(alloc, kind, request),
            Action::List(kind) => asked_of(list(alloc, kind, request)),
            Action::Get(kind) => over(ids.at(0).map(|id| Command::Get(kind, id))),
            Action::Update(kind) => match ids.at(0) {
                Some(id) => update(alloc, kind, id, request),
                None => Routed::NoRoute,
            },
            Action::Delete(kind) => over(ids.at(0).map(|id| Command::Delete(kind, id))),
            Action::ChangePassword => match ids.at(0) {
                Some(user) => change_password(alloc, user, request),
                None => Routed::NoRoute,
            },
            Action::GroupsOf => over(ids.at(0).map(|user| Command::GroupsOf(user))),
            Action::ProjectsOf => over(ids.at(0).map(|user| Command::ProjectsOf(user))),
            Action::MembersOf => over(ids.at(0).map(|group| Command::MembersOf(group))),
            Action::Join => over(member(ids).map(|row| Command::Join(row))),
            Action::IsIn => over(member(ids).map(|row| Command::IsIn(row))),
            Action::Leave => over(member(ids).map(|row| Command::Leave(row))),
            Action::Implied => over(ids.at(0).map(|prior| Command::Implied(prior))),
            Action::Imply => over(implication(ids).map(|row| Command::Imply(row))),
            Action::Implication => over(implication(ids).map(|row| Command::Implication(row))),
            Action::IsImplied => over(implication(ids).map(|row| Command::IsImplied(row))),
            Action::Unimply => over(implication(ids).map(|row| Command::Unimply(row))),
            Action::GrantsOf(route) => over(grants(route, ids).map(|(who, at)| Command::GrantsOf(
                who,
                at,
                route.inherited,
            ))),
            Action::Grant(route) => over(grant(route, ids).map(|row| Command::Grant(row))),
            Action::IsGranted(route) => over(grant(route, ids).map(|row| Command::IsGranted(row))),
            Action::Ungrant(route) => over(grant(route, ids).map(|row| Command::Ungrant(row))),
            Action::Assignments => assignments(alloc, request),
            Action::CreateTrust => create_trust(alloc, request),
            Action::Trusts => asked_of(trusts(alloc, request)),
            Action::Trust => over(ids.at(0).map(|trust| Command::Trust(trust))),
            Action::DeleteTrust => over(ids.at(0).map(|trust| Command::DeleteTrust(trust))),
            Action::TrustRoles => over(ids.at(0).map(|trust| Command::TrustRoles(trust))),
            Action::Events => Routed::Command(Command::Events),
            Action::RotateKeys => Routed::Command(Command::RotateKeys),
            Action::LoadKeys => Routed::Command(Command::LoadKeys),
            Action::CreateCatalog(kind) => create_catalog(alloc, kind, request),
            Action::ListCatalog(kind) => asked_of(list_catalog(alloc, kind, request)),
            Action::GetCatalog(kind) => over(ids.at(0).map(|id| Command::GetCatalog(kind, id))),
            Action::UpdateCatalog(kind) => match ids.at(0) {
                Some(id) => update_catalog(alloc, kind, id, request),
                None => Routed::NoRoute,
            },
            Action::DeleteCatalog(kind) => {
                over(ids.at(0).map(|id| Command::DeleteCatalog(kind, id)))
            }
            Action::ShowCatalog => Routed::Command(Command::ShowCatalog),
            Action::CreateAppCred => match ids.at(0) {
                Some(user) => create_app_cred(alloc, user, request),
                None => Routed::NoRoute,
            },
            Action::ListAppCreds => over(ids.at(0).map(|user| Command::ListAppCreds(user))),
            Action::GetAppCred => over(pair(ids).map(|(user, id)| Command::GetAppCred(user, id))),
            Action::DeleteAppCred => {
                over(pair(ids).map(|(user, id)| Command::DeleteAppCred(user, id)))
            }
            Action::CreateSecret => create_secret(alloc, request),
            Action::ListSecrets => Routed::Command(Command::ListSecrets),
            Action::GetSecret => over(ids.at(0).map(|id| Command::GetSecret(id))),
            Action::DeleteSecret => over(ids.at(0).map(|id| Command::DeleteSecret(id))),
        }
    }
}
