//! The table of routes. A new row stands here and in `table` of `specs/Routes.antt`.
ghost use Rattle.std.specs.Prelude.{◌≡◌, map};
ghost use Rattle.ks_routes.specs.Tables.{row_of};
ghost use Rattle.ks_routes.specs.Routes.{table};

use crate::action::{Action, ActorKind, GrantRoute, TargetKind};
use crate::methods::Methods;
use crate::route::Route;
use ks_base::CatalogKind;
use ks_machine::{MadeKind, RowKind};

const NONE: Methods<Action> = Methods {
    get: None,
    head: None,
    post: None,
    patch: None,
    put: None,
    delete: None,
};

const PROJECT_USER: GrantRoute = GrantRoute {
    target: TargetKind::Project,
    actor: ActorKind::User,
    inherited: false,
};

const PROJECT_GROUP: GrantRoute = GrantRoute {
    target: TargetKind::Project,
    actor: ActorKind::Group,
    inherited: false,
};

const DOMAIN_USER: GrantRoute = GrantRoute {
    target: TargetKind::Domain,
    actor: ActorKind::User,
    inherited: false,
};

const DOMAIN_GROUP: GrantRoute = GrantRoute {
    target: TargetKind::Domain,
    actor: ActorKind::Group,
    inherited: false,
};

const SYSTEM_USER: GrantRoute = GrantRoute {
    target: TargetKind::System,
    actor: ActorKind::User,
    inherited: false,
};

const SYSTEM_GROUP: GrantRoute = GrantRoute {
    target: TargetKind::System,
    actor: ActorKind::Group,
    inherited: false,
};

const INHERITED_PROJECT_USER: GrantRoute = GrantRoute {
    target: TargetKind::Project,
    actor: ActorKind::User,
    inherited: true,
};

const INHERITED_PROJECT_GROUP: GrantRoute = GrantRoute {
    target: TargetKind::Project,
    actor: ActorKind::Group,
    inherited: true,
};

const INHERITED_DOMAIN_USER: GrantRoute = GrantRoute {
    target: TargetKind::Domain,
    actor: ActorKind::User,
    inherited: true,
};

const INHERITED_DOMAIN_GROUP: GrantRoute = GrantRoute {
    target: TargetKind::Domain,
    actor: ActorKind::Group,
    inherited: true,
};

static TABLE: [Route<Action>; 57] = [
    Route {
        pattern: "/",
        methods: Methods {
            get: Some(Action::Versions),
            ..NONE
        },
    },
    Route {
        pattern: "/v3",
        methods: Methods {
            get: Some(Action::Version),
            ..NONE
        },
    },
    Route {
        pattern: "/v3/",
        methods: Methods {
            get: Some(Action::Version),
            ..NONE
        },
    },
    Route {
        pattern: "/v3/auth/tokens",
        methods: Methods {
            get: Some(Action::Validate),
            head: Some(Action::Check),
            post: Some(Action::Login),
            delete: Some(Action::RevokeToken),
            ..NONE
        },
    },
    Route {
        pattern: "/v3/auth/catalog",
        methods: Methods {
            get: Some(Action::ShowCatalog),
            ..NONE
        },
    },
    Route {
        pattern: "/v3/domains",
        methods: Methods {
            get: Some(Action::List(RowKind::Domain)),
            post: Some(Action::Create(MadeKind::Domain)),
            ..NONE
        },
    },
    Route {
        pattern: "/v3/domains/{domain}",
        methods: Methods {
            get: Some(Action::Get(RowKind::Domain)),
            patch: Some(Action::Update(MadeKind::Domain)),
            delete: Some(Action::Delete(RowKind::Domain)),
            ..NONE
        },
    },
    Route {
        pattern: "/v3/projects",
        methods: Methods {
            get: Some(Action::List(RowKind::Project)),
            post: Some(Action::Create(MadeKind::Project)),
            ..NONE
        },
    },
    Route {
        pattern: "/v3/projects/{project}",
        methods: Methods {
            get: Some(Action::Get(RowKind::Project)),
            patch: Some(Action::Update(MadeKind::Project)),
            delete: Some(Action::Delete(RowKind::Project)),
            ..NONE
        },
    },
    Route {
        pattern: "/v3/users",
        methods: Methods {
            get: Some(Action::List(RowKind::User)),
            post: Some(Action::Create(MadeKind::User)),
            ..NONE
        },
    },
    Route {
        pattern: "/v3/users/{user}",
        methods: Methods {
            get: Some(Action::Get(RowKind::User)),
            patch: Some(Action::Update(MadeKind::User)),
            delete: Some(Action::Delete(RowKind::User)),
            ..NONE
        },
    },
    Route {
        pattern: "/v3/groups",
        methods: Methods {
            get: Some(Action::List(RowKind::Group)),
            post: Some(Action::Create(MadeKind::Group)),
            ..NONE
        },
    },
    Route {
        pattern: "/v3/groups/{group}",
        methods: Methods {
            get: Some(Action::Get(RowKind::Group)),
            patch: Some(Action::Update(MadeKind::Group)),
            delete: Some(Action::Delete(RowKind::Group)),
            ..NONE
        },
    },
    Route {
        pattern: "/v3/roles",
        methods: Methods {
            get: Some(Action::List(RowKind::Role)),
            post: Some(Action::Create(MadeKind::Role)),
            ..NONE
        },
    },
    Route {
        pattern: "/v3/roles/{role}",
        methods: Methods {
            get: Some(Action::Get(RowKind::Role)),
            patch: Some(Action::Update(MadeKind::Role)),
            delete: Some(Action::Delete(RowKind::Role)),
            ..NONE
        },
    },
    Route {
        pattern: "/v3/regions",
        methods: Methods {
            get: Some(Action::ListCatalog(CatalogKind::Region)),
            post: Some(Action::CreateCatalog(CatalogKind::Region)),
            ..NONE
        },
    },
    Route {
        pattern: "/v3/regions/{region}",
        methods: Methods {
            get: Some(Action::GetCatalog(CatalogKind::Region)),
            patch: Some(Action::UpdateCatalog(CatalogKind::Region)),
            delete: Some(Action::DeleteCatalog(CatalogKind::Region)),
            ..NONE
        },
    },
    Route {
        pattern: "/v3/services",
        methods: Methods {
            get: Some(Action::ListCatalog(CatalogKind::Service)),
            post: Some(Action::CreateCatalog(CatalogKind::Service)),
            ..NONE
        },
    },
    Route {
        pattern: "/v3/services/{service}",
        methods: Methods {
            get: Some(Action::GetCatalog(CatalogKind::Service)),
            patch: Some(Action::UpdateCatalog(CatalogKind::Service)),
            delete: Some(Action::DeleteCatalog(CatalogKind::Service)),
            ..NONE
        },
    },
    Route {
        pattern: "/v3/endpoints",
        methods: Methods {
            get: Some(Action::ListCatalog(CatalogKind::Endpoint)),
            post: Some(Action::CreateCatalog(CatalogKind::Endpoint)),
            ..NONE
        },
    },
    Route {
        pattern: "/v3/endpoints/{endpoint}",
        methods: Methods {
            get: Some(Action::GetCatalog(CatalogKind::Endpoint)),
            patch: Some(Action::UpdateCatalog(CatalogKind::Endpoint)),
            delete: Some(Action::DeleteCatalog(CatalogKind::Endpoint)),
            ..NONE
        },
    },
    Route {
        pattern: "/v3/users/{user}/password",
        methods: Methods {
            post: Some(Action::ChangePassword),
            ..NONE
        },
    },
    Route {
        pattern: "/v3/users/{user}/groups",
        methods: Methods {
            get: Some(Action::GroupsOf),
            ..NONE
        },
    },
    Route {
        pattern: "/v3/users/{user}/projects",
        methods: Methods {
            get: Some(Action::ProjectsOf),
            ..NONE
        },
    },
    Route {
        pattern: "/v3/users/{user}/application_credentials",
        methods: Methods {
            get: Some(Action::ListAppCreds),
            post: Some(Action::CreateAppCred),
            ..NONE
        },
    },
    Route {
        pattern: "/v3/users/{user}/application_credentials/{credential}",
        methods: Methods {
            get: Some(Action::GetAppCred),
            delete: Some(Action::DeleteAppCred),
            ..NONE
        },
    },
    Route {
        pattern: "/v3/credentials",
        methods: Methods {
            get: Some(Action::ListSecrets),
            post: Some(Action::CreateSecret),
            ..NONE
        },
    },
    Route {
        pattern: "/v3/credentials/{credential}",
        methods: Methods {
            get: Some(Action::GetSecret),
            delete: Some(Action::DeleteSecret),
            ..NONE
        },
    },
    Route {
        pattern: "/v3/groups/{group}/users",
        methods: Methods {
            get: Some(Action::MembersOf),
            ..NONE
        },
    },
    Route {
        pattern: "/v3/groups/{group}/users/{user}",
        methods: Methods {
            head: Some(Action::IsIn),
            put: Some(Action::Join),
            delete: Some(Action::Leave),
            ..NONE
        },
    },
    Route {
        pattern: "/v3/roles/{role}/implies",
        methods: Methods {
            get: Some(Action::Implied),
            ..NONE
        },
    },
    Route {
        pattern: "/v3/roles/{role}/implies/{implied}",
        methods: Methods {
            get: Some(Action::Implication),
            head: Some(Action::IsImplied),
            put: Some(Action::Imply),
            delete: Some(Action::Unimply),
            ..NONE
        },
    },
    Route {
        pattern: "/v3/projects/{project}/users/{user}/roles",
        methods: Methods {
            get: Some(Action::GrantsOf(PROJECT_USER)),
            ..NONE
        },
    },
    Route {
        pattern: "/v3/projects/{project}/users/{user}/roles/{role}",
        methods: Methods {
            head: Some(Action::IsGranted(PROJECT_USER)),
            put: Some(Action::Grant(PROJECT_USER)),
            delete: Some(Action::Ungrant(PROJECT_USER)),
            ..NONE
        },
    },
    Route {
        pattern: "/v3/projects/{project}/groups/{group}/roles",
        methods: Methods {
            get: Some(Action::GrantsOf(PROJECT_GROUP)),
            ..NONE
        },
    },
    Route {
        pattern: "/v3/projects/{project}/groups/{group}/roles/{role}",
        methods: Methods {
            head: Some(Action::IsGranted(PROJECT_GROUP)),
            put: Some(Action::Grant(PROJECT_GROUP)),
            delete: Some(Action::Ungrant(PROJECT_GROUP)),
            ..NONE
        },
    },
    Route {
        pattern: "/v3/domains/{domain}/users/{user}/roles",
        methods: Methods {
            get: Some(Action::GrantsOf(DOMAIN_USER)),
            ..NONE
        },
    },
    Route {
        pattern: "/v3/domains/{domain}/users/{user}/roles/{role}",
        methods: Methods {
            head: Some(Action::IsGranted(DOMAIN_USER)),
            put: Some(Action::Grant(DOMAIN_USER)),
            delete: Some(Action::Ungrant(DOMAIN_USER)),
            ..NONE
        },
    },
    Route {
        pattern: "/v3/domains/{domain}/groups/{group}/roles",
        methods: Methods {
            get: Some(Action::GrantsOf(DOMAIN_GROUP)),
            ..NONE
        },
    },
    Route {
        pattern: "/v3/domains/{domain}/groups/{group}/roles/{role}",
        methods: Methods {
            head: Some(Action::IsGranted(DOMAIN_GROUP)),
            put: Some(Action::Grant(DOMAIN_GROUP)),
            delete: Some(Action::Ungrant(DOMAIN_GROUP)),
            ..NONE
        },
    },
    Route {
        pattern: "/v3/system/users/{user}/roles",
        methods: Methods {
            get: Some(Action::GrantsOf(SYSTEM_USER)),
            ..NONE
        },
    },
    Route {
        pattern: "/v3/system/users/{user}/roles/{role}",
        methods: Methods {
            head: Some(Action::IsGranted(SYSTEM_USER)),
            put: Some(Action::Grant(SYSTEM_USER)),
            delete: Some(Action::Ungrant(SYSTEM_USER)),
            ..NONE
        },
    },
    Route {
        pattern: "/v3/system/groups/{group}/roles",
        methods: Methods {
            get: Some(Action::GrantsOf(SYSTEM_GROUP)),
            ..NONE
        },
    },
    Route {
        pattern: "/v3/system/groups/{group}/roles/{role}",
        methods: Methods {
            head: Some(Action::IsGranted(SYSTEM_GROUP)),
            put: Some(Action::Grant(SYSTEM_GROUP)),
            delete: Some(Action::Ungrant(SYSTEM_GROUP)),
            ..NONE
        },
    },
    Route {
        pattern: "/v3/OS-INHERIT/projects/{project}/users/{user}/roles/{role}/inherited_to_projects",
        methods: Methods {
            head: Some(Action::IsGranted(INHERITED_PROJECT_USER)),
            put: Some(Action::Grant(INHERITED_PROJECT_USER)),
            delete: Some(Action::Ungrant(INHERITED_PROJECT_USER)),
            ..NONE
        },
    },
    Route {
        pattern: "/v3/OS-INHERIT/projects/{project}/groups/{group}/roles/{role}/inherited_to_projects",
        methods: Methods {
            head: Some(Action::IsGranted(INHERITED_PROJECT_GROUP)),
            put: Some(Action::Grant(INHERITED_PROJECT_GROUP)),
            delete: Some(Action::Ungrant(INHERITED_PROJECT_GROUP)),
            ..NONE
        },
    },
    Route {
        pattern: "/v3/OS-INHERIT/domains/{domain}/users/{user}/roles/inherited_to_projects",
        methods: Methods {
            get: Some(Action::GrantsOf(INHERITED_DOMAIN_USER)),
            ..NONE
        },
    },
    Route {
        pattern: "/v3/OS-INHERIT/domains/{domain}/users/{user}/roles/{role}/inherited_to_projects",
        methods: Methods {
            head: Some(Action::IsGranted(INHERITED_DOMAIN_USER)),
            put: Some(Action::Grant(INHERITED_DOMAIN_USER)),
            delete: Some(Action::Ungrant(INHERITED_DOMAIN_USER)),
            ..NONE
        },
    },
    Route {
        pattern: "/v3/OS-INHERIT/domains/{domain}/groups/{group}/roles/inherited_to_projects",
        methods: Methods {
            get: Some(Action::GrantsOf(INHERITED_DOMAIN_GROUP)),
            ..NONE
        },
    },
    Route {
        pattern: "/v3/OS-INHERIT/domains/{domain}/groups/{group}/roles/{role}/inherited_to_projects",
        methods: Methods {
            head: Some(Action::IsGranted(INHERITED_DOMAIN_GROUP)),
            put: Some(Action::Grant(INHERITED_DOMAIN_GROUP)),
            delete: Some(Action::Ungrant(INHERITED_DOMAIN_GROUP)),
            ..NONE
        },
    },
    Route {
        pattern: "/v3/role_assignments",
        methods: Methods {
            get: Some(Action::Assignments),
            ..NONE
        },
    },
    Route {
        pattern: "/v3/OS-TRUST/trusts",
        methods: Methods {
            get: Some(Action::Trusts),
            post: Some(Action::CreateTrust),
            ..NONE
        },
    },
    Route {
        pattern: "/v3/OS-TRUST/trusts/{trust}",
        methods: Methods {
            get: Some(Action::Trust),
            delete: Some(Action::DeleteTrust),
            ..NONE
        },
    },
    Route {
        pattern: "/v3/OS-TRUST/trusts/{trust}/roles",
        methods: Methods {
            get: Some(Action::TrustRoles),
            ..NONE
        },
    },
    Route {
        pattern: "/v3/OS-REVOKE/events",
        methods: Methods {
            get: Some(Action::Events),
            ..NONE
        },
    },
    Route {
        pattern: "/v3/OS-KS-KEYS/rotate",
        methods: Methods {
            post: Some(Action::RotateKeys),
            ..NONE
        },
    },
    Route {
        pattern: "/v3/OS-KS-KEYS/load",
        methods: Methods {
            post: Some(Action::LoadKeys),
            ..NONE
        },
    },
];

/// The routes of the Identity API v3.
pub fn rows() -> &'static [Route<Action>]
    ensures { map row_of result.now ≡ table }
{
    &TABLE
}
