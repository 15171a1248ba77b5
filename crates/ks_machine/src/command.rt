ghost use Rattle.std.specs.Prelude.{◌≡◌};
ghost use Rattle.ks_machine.specs.Room.{event_limit};

use crate::{AppCredBody, LoginBody, Made, RowKind, SecretBody, TrustBody};
use ks_base::limits::{EVENTS, SELF_REVOCATIONS};
use ks_base::{
    Actor, Boxed, CatalogIn, CatalogKind, Filter, GrantRow, Id, ImplyRow, MemberRow, Target, Text,
};

/// What a request asks for, by the route that it came on. Bodies stand behind pointers, so that a command is small to hand on.
pub enum Command {
    /// The version document.
    Version,
    /// The versions of the API that there are.
    Versions,
    Login(Boxed<LoginBody>),
    /// The subject token with all that is told of it. The truth value says whether the request allows one that
    /// has expired.
    Validate(bool),
    /// Whether the subject token is valid; the truth value as for `Validate`.
    Check(bool),
    /// The end of the subject token.
    RevokeToken,
    Create(Boxed<Made>),
    List(RowKind, Filter),
    Get(RowKind, Id),
    Update(Id, Boxed<Made>),
    Delete(RowKind, Id),
    /// The user, the original password and the new one.
    ChangePassword(Id, Text, Text),
    /// The groups that the user is in.
    GroupsOf(Id),
    /// The projects on which a user has roles.
    ProjectsOf(Id),
    /// The users in the group.
    MembersOf(Id),
    Join(MemberRow),
    IsIn(MemberRow),
    Leave(MemberRow),
    /// The roles that this one implies directly.
    Implied(Id),
    Imply(ImplyRow),
    /// One implication, with the names of its roles.
    Implication(ImplyRow),
    IsImplied(ImplyRow),
    Unimply(ImplyRow),
    /// The roles of the actor at the target, those that are inherited or those that are not.
    GrantsOf(Actor, Target, bool),
    Grant(GrantRow),
    IsGranted(GrantRow),
    Ungrant(GrantRow),
    Assignments(Filter),
    CreateTrust(Boxed<TrustBody>),
    Trusts(Filter),
    Trust(Id),
    DeleteTrust(Id),
    TrustRoles(Id),
    /// The revocations that are live.
    Events,
    RotateKeys,
    /// The keys of the folder are to be held.
    LoadKeys,
    /// A new region, service or endpoint.
    CreateCatalog(Boxed<CatalogIn>),
    ListCatalog(CatalogKind, Filter),
    GetCatalog(CatalogKind, Id),
    UpdateCatalog(Id, Boxed<CatalogIn>),
    DeleteCatalog(CatalogKind, Id),
    /// The catalog that goes with the caller's token.
    ShowCatalog,
    /// A new application credential of this user.
    CreateAppCred(Id, Boxed<AppCredBody>),
    /// Those of this user.
    ListAppCreds(Id),
    /// The user, and one of its application credentials.
    GetAppCred(Id, Id),
    DeleteAppCred(Id, Id),
    /// A new secret of one-time codes.
    CreateSecret(SecretBody),
    ListSecrets,
    GetSecret(Id),
    DeleteSecret(Id),
}

impl Drop for Command {
    fn drop(self) {
        match self {
            Command::Version
            | Command::Versions
            | Command::Login(_)
            | Command::Validate(_)
            | Command::Check(_)
            | Command::RevokeToken
            | Command::Create(_)
            | Command::List(_, _)
            | Command::Get(_, _)
            | Command::Update(_, _)
            | Command::Delete(_, _)
            | Command::ChangePassword(_, _, _)
            | Command::GroupsOf(_)
            | Command::ProjectsOf(_)
            | Command::MembersOf(_)
            | Command::Join(_)
            | Command::IsIn(_)
            | Command::Leave(_)
            | Command::Implied(_)
            | Command::Imply(_)
            | Command::Implication(_)
            | Command::IsImplied(_)
            | Command::Unimply(_)
            | Command::GrantsOf(_, _, _)
            | Command::Grant(_)
            | Command::IsGranted(_)
            | Command::Ungrant(_)
            | Command::Assignments(_)
            | Command::CreateTrust(_)
            | Command::Trusts(_)
            | Command::Trust(_)
            | Command::DeleteTrust(_)
            | Command::TrustRoles(_)
            | Command::Events
            | Command::RotateKeys
            | Command::LoadKeys
            | Command::CreateCatalog(_)
            | Command::ListCatalog(_, _)
            | Command::GetCatalog(_, _)
            | Command::UpdateCatalog(_, _)
            | Command::DeleteCatalog(_, _)
            | Command::ShowCatalog
            | Command::CreateAppCred(_, _)
            | Command::ListAppCreds(_)
            | Command::GetAppCred(_, _)
            | Command::DeleteAppCred(_, _)
            | Command::CreateSecret(_)
            | Command::ListSecrets
            | Command::GetSecret(_)
            | Command::DeleteSecret(_) => {}
        }
    }
}

impl Command {
    /// How many revocations may be live with those that the command writes.
    pub fn event_limit(&self) -> usize
        ensures { result ≡ event_limit self.now }
    {
        match self {
            Command::RevokeToken | Command::ChangePassword(_, _, _) | Command::DeleteTrust(_) => {
                SELF_REVOCATIONS
            }
            _ => EVENTS,
        }
    }
}
