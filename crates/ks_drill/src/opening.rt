//! What a drill opens with.
ghost use Rattle.std.specs.Prelude.{◌≡◌, ◌∷◌, [], IfOk};
ghost use Rattle.ks_policy.specs.Openings.{plain};
ghost use Rattle.ks_drill.specs.Drill.{AreDefault};
ghost use Rattle.ks_drill.specs.Openings.{admin, drill_opening, drill_settings, each_below, first_key, home, home_row, ring_link, ring_roles, role_id, role_named, root, root_grant, root_password, root_project, root_user, second_key};

use crate::policy::default_rules;
use crate::words::{id_of, role_id};
use ks_base::limits::{DEFAULT_KEYS, DEFAULT_LIFE};
use ks_base::{
    Actor, DomainRow, GrantList, GrantRow, Id, ImplyList, ImplyRow, Key, KeyList, ListOf, Memory,
    PasswordRow, ProjectRow, RoleList, RoleRow, Target, Text, UserRow,
};
use ks_machine::{Derived, Settings};
use ks_policy::Opening;
use std::alloc::Global;

/// The id and the name of the project and of its administrator, and the password.
pub(crate) const ROOT: &str = "root";

const ADMIN: &str = "admin";

/// How many roles imply each other.
const RING_ROLES: u64 = 16;

const FIRST_KEY: Key = Key {
    signing: [0, 1, 2, 3, 4, 5, 6, 7, 8, 9, 10, 11, 12, 13, 14, 15],
    encryption: [
        16, 17, 18, 19, 20, 21, 22, 23, 24, 25, 26, 27, 28, 29, 30, 31,
    ],
};

const SECOND_KEY: Key = Key {
    signing: [
        115, 15, 244, 199, 175, 61, 70, 146, 62, 142, 212, 81, 238, 129, 60, 135,
    ],
    encryption: [
        247, 144, 176, 162, 38, 188, 150, 169, 45, 228, 155, 94, 156, 5, 225, 238,
    ],
};

pub(crate) fn root_id() -> Id
    ensures { result ≡ root }
{
    id_of(ROOT.as_bytes())
}

/// The domain of all projects and users.
pub(crate) fn home() -> Id
    ensures { result ≡ home }
{
    id_of(b"default")
}

/// The list of one item.
fn single<T: Drop>(alloc: Global, item: T) -> Result<ListOf<T>, Memory>
    ensures { IfOk result (λ list. list ≡ item ∷ []) }
{
    let mut list = ListOf::new(alloc);
    list.push(item)?;
    Ok(list)
}

fn settings(alloc: Global) -> Result<Settings, Memory>
    ensures { IfOk result (λ made. made ≡ drill_settings) }
{
    Ok(Settings {
        url: Text::of(alloc, "http://127.0.0.1:5000")?,
        life: DEFAULT_LIFE,
        rounds: 1,
        max_keys: DEFAULT_KEYS,
        folder: false,
    })
}

fn keys(alloc: Global) -> Result<KeyList, Memory>
    ensures { IfOk result (λ made. made ≡ (0, first_key) ∷ (1, second_key) ∷ []) }
{
    let mut keys = KeyList::new(alloc);
    keys.push((0, FIRST_KEY))?;
    keys.push((1, SECOND_KEY))?;
    Ok(keys)
}

fn domain(alloc: Global) -> Result<DomainRow, Memory>
    ensures { IfOk result (λ made. made ≡ home_row) }
{
    Ok(DomainRow {
        id: home(),
        name: Text::of(alloc, "Default")?,
        description: Text::of(alloc, "")?,
        enabled: true,
    })
}

fn project(alloc: Global) -> Result<ProjectRow, Memory>
    ensures { IfOk result (λ made. made ≡ root_project) }
{
    Ok(ProjectRow {
        id: root_id(),
        domain: home(),
        parent: home(),
        name: Text::of(alloc, ROOT)?,
        description: Text::of(alloc, "")?,
        enabled: true,
    })
}

fn password(alloc: Global) -> Result<PasswordRow, Memory>
    ensures { IfOk result (λ made. made ≡ root_password) }
{
    let salt = [0; 16];
    let derived = Derived::of(Text::of(alloc, ROOT)?, salt, 1);
    Ok(PasswordRow {
        salt,
        rounds: 1,
        digest: *derived.digest(),
    })
}

fn user(alloc: Global) -> Result<UserRow, Memory>
    ensures { IfOk result (λ made. made ≡ root_user) }
{
    Ok(UserRow {
        id: root_id(),
        domain: home(),
        name: Text::of(alloc, ROOT)?,
        enabled: true,
        password: Some(password(alloc)?),
    })
}

/// A role whose name is its id.
fn role(alloc: Global, id: Id) -> Result<RoleRow, Memory>
    ensures { IfOk result (λ made. made ≡ role_named id) }
{
    Ok(RoleRow {
        id,
        name: Text::of(alloc, id.as_str())?,
        description: Text::of(alloc, "")?,
    })
}

/// The administrator's role, and those of the ring.
#[tactic(auto, using(crate::proofs::OpeningLemmas::each_more), unfolding(crate::specs::Openings::each_below))]
fn roles(alloc: Global) -> Result<RoleList, Memory>
    ensures { IfOk result (λ made. made ≡ role_named admin ∷ each_below (λ number. role_named (role_id number)) ring_roles) }
{
    let mut roles = single(alloc, role(alloc, id_of(ADMIN.as_bytes()))?)?;
    for number in 0..RING_ROLES {
        roles.push(role(alloc, role_id(alloc, number)?)?)?;
    }
    Ok(roles)
}

/// Each role of the ring implies the next, and the last one the first.
#[tactic(auto, using(crate::proofs::OpeningLemmas::each_more), unfolding(crate::specs::Openings::each_below))]
fn links(alloc: Global) -> Result<ImplyList, Memory>
    ensures { IfOk result (λ made. made ≡ each_below ring_link ring_roles) }
{
    let mut links = ImplyList::new(alloc);
    for number in 0..RING_ROLES {
        links.push(ImplyRow {
            prior: role_id(alloc, number)?,
            implied: role_id(alloc, (number + 1) % RING_ROLES)?,
        })?;
    }
    Ok(links)
}

/// The administrator's role on the project.
fn grants(alloc: Global) -> Result<GrantList, Memory>
    ensures { IfOk result (λ made. made ≡ root_grant ∷ []) }
{
    let mut grants = GrantList::new(alloc);
    grants.push(GrantRow {
        actor: Actor::User(root_id()),
        target: Target::Project(root_id()),
        inherited: false,
        role: id_of(ADMIN.as_bytes()),
    })?;
    Ok(grants)
}

/// The default policy, two keys, one domain with one project and its administrator, and a ring of roles that imply each other.
pub(crate) fn opening(alloc: Global) -> Result<Opening, Memory>
    ensures made { IfOk result (λ made. plain made ≡ drill_opening made.rules) }
    ensures rules { IfOk result (λ made. AreDefault made.rules) }
{
    let assignments = grants(alloc)?;
    assembled(alloc, assignments)
}

/// The opening with these grants.
#[tactic(auto, unfolding(crate::specs::Openings::drill_opening))]
fn assembled(alloc: Global, assignments: GrantList) -> Result<Opening, Memory>
    requires { assignments ≡ root_grant ∷ [] }
    ensures made { IfOk result (λ made. plain made ≡ drill_opening made.rules) }
    ensures rules { IfOk result (λ made. AreDefault made.rules) }
{
    Ok(Opening {
        settings: settings(alloc)?,
        rules: default_rules(alloc)?,
        ring: keys(alloc)?,
        domains: single(alloc, domain(alloc)?)?,
        projects: single(alloc, project(alloc)?)?,
        users: single(alloc, user(alloc)?)?,
        groups: ListOf::new(alloc),
        members: ListOf::new(alloc),
        roles: roles(alloc)?,
        implications: links(alloc)?,
        regions: ListOf::new(alloc),
        services: ListOf::new(alloc),
        endpoints: ListOf::new(alloc),
        assignments,
    })
}
