//! What routes ask for.
use ks_base::CatalogKind;
use ks_machine::{MadeKind, RowKind};

/// Whose grants a route is about.
#[derive(Clone, Copy)]
pub enum ActorKind {
    User,
    Group,
}

/// Where the grants of a route hold.
#[derive(Clone, Copy)]
pub enum TargetKind {
    Project,
    Domain,
    System,
}

/// The grants that a route is about; `inherited`: those that the target's projects inherit.
#[derive(Clone, Copy)]
pub struct GrantRoute {
    pub target: TargetKind,
    pub actor: ActorKind,
    pub inherited: bool,
}

/// What a method asks for on its route.
#[derive(Clone, Copy)]
pub enum Action {
    Version,
    Versions,
    Login,
    Validate,
    Check,
    RevokeToken,
    Create(MadeKind),
    List(RowKind),
    Get(RowKind),
    Update(MadeKind),
    Delete(RowKind),
    ChangePassword,
    GroupsOf,
    ProjectsOf,
    MembersOf,
    Join,
    IsIn,
    Leave,
    Implied,
    Imply,
    Implication,
    IsImplied,
    Unimply,
    GrantsOf(GrantRoute),
    Grant(GrantRoute),
    IsGranted(GrantRoute),
    Ungrant(GrantRoute),
    Assignments,
    CreateTrust,
    Trusts,
    Trust,
    DeleteTrust,
    TrustRoles,
    Events,
    RotateKeys,
    LoadKeys,
    CreateCatalog(CatalogKind),
    ListCatalog(CatalogKind),
    GetCatalog(CatalogKind),
    UpdateCatalog(CatalogKind),
    DeleteCatalog(CatalogKind),
    ShowCatalog,
    CreateAppCred,
    ListAppCreds,
    GetAppCred,
    DeleteAppCred,
    CreateSecret,
    ListSecrets,
    GetSecret,
    DeleteSecret,
}
