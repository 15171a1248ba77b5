//! Faults of the rows of an opening file.
ghost use Rattle.std.specs.Prelude.{◌≡◌, IfOk, position, string_bytes};
ghost use Rattle.ks_base.specs.Limits.{limit};
ghost use Rattle.ks_base.specs.Rows.{same};
ghost use Rattle.ks_base.specs.Tree.{is_child_of};
ghost use Rattle.ks_lines.specs.RowLines.{deep_line, disabled_line, full_line, id_line, ids_meeting, in_domain, name_at, name_line, name_line_in, name_unplaced, prohibited_line, ring_line, row_line};

use crate::absent::{absent_line, is_child_of};
use crate::named::{NameAndDomain, first_place, first_row, id_meeting, name_meeting};
use crate::spot::{Field, id_quoted, list_name, located, quoted, row_path, spot_at};
use itoa::Buffer;
use ks_base::limits::{
    APP_CREDS, DOMAINS, ENDPOINTS, EVENTS, GRANTS, GROUPS, IMPLICATIONS, KEYS, LEVELS, MEMBERS,
    PROJECTS, REGIONS, ROLES, SECRETS, SERVICES, TRUSTS, USERS,
};
use ks_base::{Id, ImplyRow, Kind, LoadFault, Memory, ProjectRow};
use ks_machine::OpenFault;
use ks_written::{Written, joined};
use std::alloc::Global;

/// The places of the first two rows of the kind with the id.
fn ids_meeting(written: &Written, kind: Kind, id: &Id) -> Option<(usize, usize)>
    ensures { result ≡ ids_meeting written.now kind id.now }
{
    match kind {
        Kind::Domain => id_meeting(written.domains.as_slice(), id),
        Kind::Project => id_meeting(written.projects.as_slice(), id),
        Kind::User => id_meeting(written.users.as_slice(), id),
        Kind::Group => id_meeting(written.groups.as_slice(), id),
        Kind::Role => id_meeting(written.roles.as_slice(), id),
        Kind::Region => id_meeting(written.regions.as_slice(), id),
        Kind::Service => id_meeting(written.services.as_slice(), id),
        Kind::Endpoint => id_meeting(written.endpoints.as_slice(), id),
        Kind::Implication
        | Kind::Grant
        | Kind::Member
        | Kind::Trust
        | Kind::Event
        | Kind::AppCred
        | Kind::Secret => None,
    }
}

/// That two rows of the kind have the id.
fn id_line(
    alloc: Global,
    kind: Kind,
    id: &Id,
    places: Option<(usize, usize)>,
) -> Result<String, Memory>
    ensures { IfOk result (λ made. string_bytes made ≡ id_line kind id.now places) }
{
    let id = id_quoted(alloc, id)?;
    let Some((first, later)) = places else {
        return joined(
            alloc,
            &["two ", list_name(kind), " have the id ", id.as_str()],
        );
    };
    let first = row_path(alloc, kind, first)?;
    let said = joined(
        alloc,
        &[id.as_str(), " is the id of ", first.as_str(), " too"],
    )?;
    located(alloc, spot_at(kind, Field::Id, Some(later)), said.as_str())
}

/// In which domain, where it is in one.
fn in_domain(alloc: Global, domain: Option<Id>) -> Result<String, Memory>
    ensures { IfOk result (λ made. string_bytes made ≡ in_domain domain) }
{
    match domain {
        Some(domain) => {
            let domain = id_quoted(alloc, &domain)?;
            joined(alloc, &[" in the domain ", domain.as_str()])
        }
        None => Ok(String::new(alloc)),
    }
}

fn name_unplaced(alloc: Global, kind: Kind, id: &Id) -> Result<String, Memory>
    ensures { IfOk result (λ made. string_bytes made ≡ name_unplaced kind id.now) }
{
    let id = id_quoted(alloc, id)?;
    joined(
        alloc,
        &[
            "two ",
            list_name(kind),
            " have the name of the one with the id ",
            id.as_str(),
        ],
    )
}

/// That the row at the later place has the name of this one, which stands at the first place.
fn name_at<R: NameAndDomain>(
    alloc: Global,
    kind: Kind,
    row: &R,
    first: usize,
    later: usize,
) -> Result<String, Memory>
    ensures { IfOk result (λ made. string_bytes made ≡ name_at kind (R.named row.now) first later) }
{
    let name = quoted(alloc, row.name().as_str())?;
    let first = row_path(alloc, kind, first)?;
    let domain = in_domain(alloc, row.domain())?;
    let said = joined(
        alloc,
        &[
            name.as_str(),
            " is the name of ",
            first.as_str(),
            domain.as_str(),
            " too",
        ],
    )?;
    located(
        alloc,
        spot_at(kind, Field::Name, Some(later)),
        said.as_str(),
    )
}

/// That two of the rows have the name of the one with the id.
fn name_line_in<R: NameAndDomain>(
    alloc: Global,
    kind: Kind,
    rows: &[R],
    id: &Id,
) -> Result<String, Memory>
    ensures { IfOk result (λ made. string_bytes made ≡ name_line_in R.key R.named kind id.now rows.now) }
{
    let Some(row) = first_row(rows, id) else {
        return name_unplaced(alloc, kind, id);
    };
    match name_meeting(rows, id) {
        Some((first, later)) => name_at(alloc, kind, row, first, later),
        None => name_unplaced(alloc, kind, id),
    }
}

/// That two rows of the kind have the name of the one with the id.
fn name_line(alloc: Global, written: &Written, kind: Kind, id: &Id) -> Result<String, Memory>
    ensures { IfOk result (λ made. string_bytes made ≡ name_line written.now kind id.now) }
{
    match kind {
        Kind::Domain => name_line_in(alloc, kind, written.domains.as_slice(), id),
        Kind::Project => name_line_in(alloc, kind, written.projects.as_slice(), id),
        Kind::User => name_line_in(alloc, kind, written.users.as_slice(), id),
        Kind::Group => name_line_in(alloc, kind, written.groups.as_slice(), id),
        Kind::Role => name_line_in(alloc, kind, written.roles.as_slice(), id),
        Kind::Implication
        | Kind::Grant
        | Kind::Member
        | Kind::Trust
        | Kind::Event
        | Kind::Region
        | Kind::Service
        | Kind::Endpoint
        | Kind::AppCred
        | Kind::Secret => name_unplaced(alloc, kind, id),
    }
}

fn deep_line(alloc: Global, projects: &[ProjectRow], id: &Id) -> Result<String, Memory>
    ensures { IfOk result (λ made. string_bytes made ≡ deep_line projects.now id.now) }
{
    let place = first_place(projects, id);
    let id = id_quoted(alloc, id)?;
    let said = joined(
        alloc,
        &[
            "the project ",
            id.as_str(),
            " lies more than ",
            Buffer::new().format(LEVELS),
            " levels below its domain",
        ],
    )?;
    located(
        alloc,
        spot_at(Kind::Project, Field::ParentId, place),
        said.as_str(),
    )
}

fn first_child(projects: &[ProjectRow], id: &Id) -> Option<usize>
    ensures { result ≡ position (is_child_of id.now) projects.now }
{
    projects.iter().position(|row| is_child_of(row, id))
}

fn disabled_line(alloc: Global, projects: &[ProjectRow], id: &Id) -> Result<String, Memory>
    ensures { IfOk result (λ made. string_bytes made ≡ disabled_line projects.now id.now) }
{
    let place = first_child(projects, id);
    let id = id_quoted(alloc, id)?;
    let said = joined(
        alloc,
        &["the project ", id.as_str(), " above it is disabled"],
    )?;
    located(
        alloc,
        spot_at(Kind::Project, Field::ParentId, place),
        said.as_str(),
    )
}

fn implied_place(rows: &[ImplyRow], id: &Id) -> Option<usize>
    ensures { result ≡ position (λ row. same row.implied id.now) rows.now }
{
    rows.iter().position(|row| row.implied == *id)
}

fn prohibited_line(alloc: Global, rows: &[ImplyRow], id: &Id) -> Result<String, Memory>
    ensures { IfOk result (λ made. string_bytes made ≡ prohibited_line rows.now id.now) }
{
    let place = implied_place(rows, id);
    let id = id_quoted(alloc, id)?;
    let said = joined(
        alloc,
        &[
            "the role ",
            id.as_str(),
            " is named admin and may not be implied",
        ],
    )?;
    located(
        alloc,
        spot_at(Kind::Implication, Field::Implied, place),
        said.as_str(),
    )
}

/// How many rows of the kind may stand.
fn limit(kind: Kind) -> usize
    ensures { result ≡ limit kind }
{
    match kind {
        Kind::Domain => DOMAINS,
        Kind::Project => PROJECTS,
        Kind::User => USERS,
        Kind::Group => GROUPS,
        Kind::Role => ROLES,
        Kind::Implication => IMPLICATIONS,
        Kind::Grant => GRANTS,
        Kind::Member => MEMBERS,
        Kind::Trust => TRUSTS,
        Kind::Event => EVENTS,
        Kind::Region => REGIONS,
        Kind::Service => SERVICES,
        Kind::Endpoint => ENDPOINTS,
        Kind::AppCred => APP_CREDS,
        Kind::Secret => SECRETS,
    }
}

fn full_line(alloc: Global, kind: Kind) -> Result<String, Memory>
    ensures { IfOk result (λ made. string_bytes made ≡ full_line kind) }
{
    let list = list_name(kind);
    joined(
        alloc,
        &[
            list,
            ": more than ",
            Buffer::new().format(limit(kind)),
            " ",
            list,
        ],
    )
}

fn ring_line(alloc: Global, why: &LoadFault) -> Result<String, Memory>
    ensures { IfOk result (λ made. string_bytes made ≡ ring_line why.now) }
{
    match why {
        LoadFault::Empty => joined(alloc, &["keys: there is none"]),
        LoadFault::Repeated(index) => joined(
            alloc,
            &["keys: two have the index ", Buffer::new().format(*index)],
        ),
        LoadFault::TooMany => joined(alloc, &["keys: more than ", Buffer::new().format(KEYS)]),
    }
}

/// Where the rows that are written have the fault, and what is wrong there.
#[tactic(auto, unfolding(crate::specs::RowLines::row_line))]
pub(crate) fn row_line(
    alloc: Global,
    written: &Written,
    fault: &OpenFault,
) -> Result<String, Memory>
    ensures { IfOk result (λ made. string_bytes made ≡ row_line written.now fault.now) }
{
    match fault {
        OpenFault::IdRepeated(kind, id) => {
            id_line(alloc, *kind, id, ids_meeting(written, *kind, id))
        }
        OpenFault::Name(kind, id) => name_line(alloc, written, *kind, id),
        OpenFault::Absent(kind, id) => absent_line(alloc, written, *kind, id),
        OpenFault::TooDeep(id) => deep_line(alloc, written.projects.as_slice(), id),
        OpenFault::DisabledAbove(id) => disabled_line(alloc, written.projects.as_slice(), id),
        OpenFault::Prohibited(id) => prohibited_line(alloc, written.implications.as_slice(), id),
        OpenFault::Full(kind) => full_line(alloc, *kind),
        OpenFault::Ring(why) => ring_line(alloc, why),
        OpenFault::Memory => joined(alloc, &["out of memory"]),
    }
}
