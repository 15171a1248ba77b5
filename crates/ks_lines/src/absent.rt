//! Rows that name what does not stand.
ghost use Rattle.std.specs.Prelude.{◌≡◌, ◌&&◌, [], IfOk, find, position, string_bytes};
ghost use Rattle.std.specs.List.{list_any};
ghost use Rattle.std.specs.Option.{option_copied};
ghost use Rattle.ks_base.specs.declared.kinds.Kind.TheVariants as variant;
ghost use Rattle.ks_base.specs.declared.grants.Actor.TheVariants as actors;
ghost use Rattle.ks_base.specs.declared.grants.Target.TheVariants as targets;
ghost use Rattle.ks_base.specs.Catalog.{is_in_region, is_of_service, names_id};
ghost use Rattle.ks_base.specs.Grants.{is_at_target, is_of_actor};
ghost use Rattle.ks_base.specs.Rows.{same};
ghost use Rattle.ks_base.specs.Tree.{is_child_of};
ghost use Rattle.ks_base.specs.RoleLists.{names_role};
ghost use Rattle.ks_lines.specs.RowLines.{absent_at, absent_line, domain_spot, group_spot, implication_at, is_orphan, is_region_orphan, orphan_or, orphan_place, orphan_project, orphan_region, project_spot, region_spot, role_field, role_spot, service_spot, user_spot};

use crate::spot::{Field, Spot, id_quoted, located, row_name, spot_at};
use ks_base::{
    Actor, EndpointRow, GrantRow, GroupRow, Id, ImplyRow, Kind, MemberRow, Memory, ProjectRow,
    RegionRow, Target,
};
use ks_written::{Written, WrittenUser, joined};
use std::alloc::Global;

fn project_in(rows: &[ProjectRow], domain: &Id) -> Option<usize>
    ensures { result ≡ position (λ row. same row.domain domain.now) rows.now }
{
    rows.iter().position(|row| row.domain == *domain)
}

fn user_in(rows: &[WrittenUser], domain: &Id) -> Option<usize>
    ensures { result ≡ position (λ row. same row.domain domain.now) rows.now }
{
    rows.iter().position(|row| row.domain == *domain)
}

fn group_in(rows: &[GroupRow], domain: &Id) -> Option<usize>
    ensures { result ≡ position (λ row. same row.domain domain.now) rows.now }
{
    rows.iter().position(|row| row.domain == *domain)
}

fn member_user(rows: &[MemberRow], user: &Id) -> Option<usize>
    ensures { result ≡ position (λ row. same row.user user.now) rows.now }
{
    rows.iter().position(|row| row.user == *user)
}

fn member_group(rows: &[MemberRow], group: &Id) -> Option<usize>
    ensures { result ≡ position (λ row. same row.group group.now) rows.now }
{
    rows.iter().position(|row| row.group == *group)
}

fn grant_user(rows: &[GrantRow], user: &Id) -> Option<usize>
    ensures { result ≡ position (is_of_actor (actors.User user.now)) rows.now }
{
    let who = Actor::User(*user);
    rows.iter().position(|row| row.is_of(&who))
}

fn grant_group(rows: &[GrantRow], group: &Id) -> Option<usize>
    ensures { result ≡ position (is_of_actor (actors.Group group.now)) rows.now }
{
    let who = Actor::Group(*group);
    rows.iter().position(|row| row.is_of(&who))
}

fn grant_project(rows: &[GrantRow], project: &Id) -> Option<usize>
    ensures { result ≡ position (is_at_target (targets.Project project.now)) rows.now }
{
    let place = Target::Project(*project);
    rows.iter().position(|row| row.is_at(&place))
}

fn grant_domain(rows: &[GrantRow], domain: &Id) -> Option<usize>
    ensures { result ≡ position (is_at_target (targets.Domain domain.now)) rows.now }
{
    let place = Target::Domain(*domain);
    rows.iter().position(|row| row.is_at(&place))
}

fn grant_role(rows: &[GrantRow], role: &Id) -> Option<usize>
    ensures { result ≡ position (λ row. same row.role role.now) rows.now }
{
    rows.iter().position(|row| row.role == *role)
}

fn names_id(given: &Option<Id>, id: &Id) -> bool
    ensures { result ≡ names_id id.now given.now }
{
    match given {
        Some(other) => *other == *id,
        None => false,
    }
}

fn endpoint_region(rows: &[EndpointRow], region: &Id) -> Option<usize>
    ensures { result ≡ position (is_in_region region.now) rows.now }
{
    rows.iter().position(|row| names_id(&row.region, region))
}

fn endpoint_service(rows: &[EndpointRow], service: &Id) -> Option<usize>
    ensures { result ≡ position (is_of_service service.now) rows.now }
{
    rows.iter().position(|row| row.service == *service)
}

fn names_role(row: &ImplyRow, role: &Id) -> bool
    ensures { result ≡ names_role role.now row.now }
{
    row.prior == *role || row.implied == *role
}

fn implication_place(rows: &[ImplyRow], role: &Id) -> Option<usize>
    ensures { result ≡ position (names_role role.now) rows.now }
{
    rows.iter().position(|row| names_role(row, role))
}

fn implication<'a>(rows: &'a [ImplyRow], role: &Id) -> Option<&'a ImplyRow>
    ensures { option_copied result ≡ find (names_role role.now) rows.now }
{
    rows.iter().find(|row| names_role(*row, role))
}

fn role_field(row: &ImplyRow, role: &Id) -> Field
    ensures { result ≡ role_field role.now row.now }
{
    if row.prior == *role {
        return Field::Prior;
    }
    Field::Implied
}

/// The first implication that names the role.
fn implication_spot(rows: &[ImplyRow], role: &Id) -> Option<Spot>
    ensures { result ≡ implication_at role.now (position (names_role role.now) rows.now) (find (names_role role.now) rows.now) }
{
    match implication(rows, role) {
        Some(row) => spot_at(
            Kind::Implication,
            role_field(row, role),
            implication_place(rows, role),
        ),
        None => None,
    }
}

fn domain_spot(written: &Written, id: &Id) -> Option<Spot>
    ensures { result ≡ domain_spot written.now id.now }
{
    let project = project_in(written.projects.as_slice(), id);
    let user = user_in(written.users.as_slice(), id);
    let group = group_in(written.groups.as_slice(), id);
    let grant = grant_domain(written.assignments.as_slice(), id);
    spot_at(Kind::Project, Field::DomainId, project).or(spot_at(
        Kind::User,
        Field::DomainId,
        user,
    ).or(spot_at(Kind::Group, Field::DomainId, group).or(spot_at(
        Kind::Grant,
        Field::Domain,
        grant,
    ))))
}

fn user_spot(written: &Written, id: &Id) -> Option<Spot>
    ensures { result ≡ user_spot written.now id.now }
{
    let member = member_user(written.members.as_slice(), id);
    let grant = grant_user(written.assignments.as_slice(), id);
    spot_at(Kind::Member, Field::User, member).or(spot_at(Kind::Grant, Field::User, grant))
}

fn group_spot(written: &Written, id: &Id) -> Option<Spot>
    ensures { result ≡ group_spot written.now id.now }
{
    let member = member_group(written.members.as_slice(), id);
    let grant = grant_group(written.assignments.as_slice(), id);
    spot_at(Kind::Member, Field::Group, member).or(spot_at(Kind::Grant, Field::Group, grant))
}

fn role_spot(written: &Written, id: &Id) -> Option<Spot>
    ensures { result ≡ role_spot written.now id.now }
{
    let implication = implication_spot(written.implications.as_slice(), id);
    let grant = grant_role(written.assignments.as_slice(), id);
    implication.or(spot_at(Kind::Grant, Field::Role, grant))
}

/// A row that may lie below another one, which has to stand before it.
trait Below {
    ghost use Rattle.std.specs.Prelude.{◌≡◌, ℕ, Bool, List};

    ghost orphan: { List ℕ → List Self → Self → Bool };

    /// Whether the row lies below the one with this id, which is none of those before it.
    fn is_orphan(&self, before: &[Self], id: &Id) -> bool
        ensures { result ≡ orphan id.now before.now self.now };
}

impl Below for ProjectRow {
    ghost orphan = { is_orphan };

    fn is_orphan(&self, before: &[ProjectRow], id: &Id) -> bool {
        is_child_of(self, id) && !stands_in(before, &self.domain, id)
    }
}

impl Below for RegionRow {
    ghost orphan = { is_region_orphan };

    fn is_orphan(&self, before: &[RegionRow], id: &Id) -> bool {
        names_id(&self.parent, id) && !region_stands(before, id)
    }
}

/// Whether the project lies right below this one.
pub(crate) fn is_child_of(row: &ProjectRow, id: &Id) -> bool
    ensures { result ≡ is_child_of id.now row.now }
{
    row.parent != row.domain && row.parent == *id
}

fn stands_in(rows: &[ProjectRow], domain: &Id, id: &Id) -> bool
    ensures { result ≡ list_any (λ other. same other.id id.now && same other.domain domain.now) rows.now }
{
    rows.iter()
        .any(|other| other.id == *id && other.domain == *domain)
}

fn region_stands(rows: &[RegionRow], id: &Id) -> bool
    ensures { result ≡ list_any (λ other. same other.id id.now) rows.now }
{
    rows.iter().any(|other| other.id == *id)
}

/// The place of the first row that lies below the one with the id, which does not stand before it.
fn orphan_place<R: Below>(rows: &[R], id: &Id) -> Option<usize>
    ensures { result ≡ orphan_place (R.orphan id.now) [] rows.now }
{
    'rows: for (at, row) in rows.iter().enumerate() {
        let (before, _) = rows.split_at(at);
        if row.is_orphan(before, id) {
            return Some(at);
        }
    }
    None
}

fn orphan_project(written: &Written, id: &Id) -> Option<Spot>
    ensures { result ≡ orphan_project written.now id.now }
{
    let place = orphan_place(written.projects.as_slice(), id);
    spot_at(Kind::Project, Field::ParentId, place)
}

fn orphan_region(written: &Written, id: &Id) -> Option<Spot>
    ensures { result ≡ orphan_region written.now id.now }
{
    let place = orphan_place(written.regions.as_slice(), id);
    spot_at(Kind::Region, Field::ParentRegionId, place)
}

fn project_spot(written: &Written, id: &Id) -> Option<Spot>
    ensures { result ≡ project_spot written.now id.now }
{
    let grant = grant_project(written.assignments.as_slice(), id);
    spot_at(Kind::Grant, Field::Project, grant)
}

fn region_spot(written: &Written, id: &Id) -> Option<Spot>
    ensures { result ≡ region_spot written.now id.now }
{
    let endpoint = endpoint_region(written.endpoints.as_slice(), id);
    spot_at(Kind::Endpoint, Field::RegionId, endpoint)
}

fn service_spot(written: &Written, id: &Id) -> Option<Spot>
    ensures { result ≡ service_spot written.now id.now }
{
    let endpoint = endpoint_service(written.endpoints.as_slice(), id);
    spot_at(Kind::Endpoint, Field::ServiceId, endpoint)
}

/// That no row of the kind has the id.
fn absent_at(alloc: Global, spot: Option<Spot>, kind: Kind, id: &Id) -> Result<String, Memory>
    ensures { IfOk result (λ made. string_bytes made ≡ absent_at spot kind id.now) }
{
    let id = id_quoted(alloc, id)?;
    let said = joined(alloc, &["no ", row_name(kind), " has the id ", id.as_str()])?;
    located(alloc, spot, said.as_str())
}

/// That the row at the place has none before it with the id, or else that no row of the kind has it.
fn orphan_or(
    alloc: Global,
    orphan: Option<Spot>,
    said: &str,
    kind: Kind,
    id: &Id,
    other: Option<Spot>,
) -> Result<String, Memory>
    ensures { IfOk result (λ made. string_bytes made ≡ orphan_or orphan said.now id.now (absent_at other kind id.now)) }
{
    let Some(spot) = orphan else {
        return absent_at(alloc, other, kind, id);
    };
    let id = id_quoted(alloc, id)?;
    let said = joined(alloc, &[said, id.as_str()])?;
    located(alloc, Some(spot), said.as_str())
}

fn project_line(alloc: Global, written: &Written, id: &Id) -> Result<String, Memory>
    ensures { IfOk result (λ made. string_bytes made ≡ absent_line written.now variant.Project id.now) }
{
    let orphan = orphan_project(written, id);
    let other = project_spot(written, id);
    let said = "no project before it in its domain has the id ";
    orphan_or(alloc, orphan, said, Kind::Project, id, other)
}

fn region_line(alloc: Global, written: &Written, id: &Id) -> Result<String, Memory>
    ensures { IfOk result (λ made. string_bytes made ≡ absent_line written.now variant.Region id.now) }
{
    let orphan = orphan_region(written, id);
    let other = region_spot(written, id);
    let said = "no region before it has the id ";
    orphan_or(alloc, orphan, said, Kind::Region, id, other)
}

/// That no row of the kind has the id, which a row names.
pub(crate) fn absent_line(
    alloc: Global,
    written: &Written,
    kind: Kind,
    id: &Id,
) -> Result<String, Memory>
    ensures { IfOk result (λ made. string_bytes made ≡ absent_line written.now kind id.now) }
{
    match kind {
        Kind::Domain => absent_at(alloc, domain_spot(written, id), kind, id),
        Kind::Project => project_line(alloc, written, id),
        Kind::User => absent_at(alloc, user_spot(written, id), kind, id),
        Kind::Group => absent_at(alloc, group_spot(written, id), kind, id),
        Kind::Role => absent_at(alloc, role_spot(written, id), kind, id),
        Kind::Region => region_line(alloc, written, id),
        Kind::Service => absent_at(alloc, service_spot(written, id), kind, id),
        Kind::Implication
        | Kind::Grant
        | Kind::Member
        | Kind::Trust
        | Kind::Event
        | Kind::Endpoint
        | Kind::AppCred
        | Kind::Secret => absent_at(alloc, None, kind, id),
    }
}
