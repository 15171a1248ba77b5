//! Rows that meet in an id or a name.
ghost use Rattle.std.specs.Prelude.{◌≡◌, ◌<◌, IfSome, find, length, position};
ghost use Rattle.std.specs.Option.{option_copied};
ghost use Rattle.ks_lines.specs.Meetings.{NamedRow, domain_named, first_place, group_named, has_id, has_name, id_meeting, in_one_domain, name_meeting, next_place, project_named, role_named, user_named};

use ks_base::{DomainRow, GroupRow, Id, ProjectRow, RoleRow, Row, Text};
use ks_written::WrittenUser;

/// A row with a name that no other row of its domain has, or none at all where it lies in no domain.
pub(crate) trait NameAndDomain: Row {
    ghost named: { Self → NamedRow };

    fn domain(&self) -> Option<Id>
        ensures { result ≡ (named self.now).domain };

    fn name(&self) -> &Text
        ensures { result.now ≡ (named self.now).name };
}

impl NameAndDomain for DomainRow {
    ghost named = { domain_named };

    fn domain(&self) -> Option<Id> {
        None
    }

    fn name(&self) -> &Text {
        &self.name
    }
}

impl NameAndDomain for ProjectRow {
    ghost named = { project_named };

    fn domain(&self) -> Option<Id> {
        Some(self.domain)
    }

    fn name(&self) -> &Text {
        &self.name
    }
}

impl NameAndDomain for WrittenUser {
    ghost named = { user_named };

    fn domain(&self) -> Option<Id> {
        Some(self.domain)
    }

    fn name(&self) -> &Text {
        &self.name
    }
}

impl NameAndDomain for GroupRow {
    ghost named = { group_named };

    fn domain(&self) -> Option<Id> {
        Some(self.domain)
    }

    fn name(&self) -> &Text {
        &self.name
    }
}

impl NameAndDomain for RoleRow {
    ghost named = { role_named };

    fn domain(&self) -> Option<Id> {
        None
    }

    fn name(&self) -> &Text {
        &self.name
    }
}

fn has_id<R: Row>(row: &R, id: &Id) -> bool
    ensures { result ≡ has_id R.key id.now row.now }
{
    *row.id() == *id
}

fn in_one_domain<R: NameAndDomain>(row: &R, other: &R) -> bool
    ensures { result ≡ in_one_domain (R.named row.now).domain (R.named other.now).domain }
{
    match (row.domain(), other.domain()) {
        (None, None) => true,
        (Some(domain), Some(other)) => domain == other,
        (None, Some(_)) | (Some(_), None) => false,
    }
}

fn has_name<R: NameAndDomain>(row: &R, other: &R) -> bool
    ensures { result ≡ has_name R.named row.now other.now }
{
    in_one_domain(row, other) && row.name() == other.name()
}

/// The place of the first row with the id.
pub(crate) fn first_place<R: Row>(rows: &[R], id: &Id) -> Option<usize>
    ensures place { result ≡ first_place R.key id.now rows.now }
    ensures within { IfSome result (λ place. place < length rows.now) }
{
    rows.iter().position(|row| has_id(row, id))
}

/// The first row with the id.
pub(crate) fn first_row<'a, R: Row>(rows: &'a [R], id: &Id) -> Option<&'a R>
    ensures { option_copied result ≡ find (has_id R.key id.now) rows.now }
{
    rows.iter().find(|row| has_id(*row, id))
}

fn name_place<R: NameAndDomain>(rows: &[R], row: &R) -> Option<usize>
    ensures place { result ≡ position (has_name R.named row.now) rows.now }
    ensures within { IfSome result (λ place. place < length rows.now) }
{
    rows.iter().position(|other| has_name(row, other))
}

/// The place of the next row with the id.
fn next_with_id<R: Row>(rows: &[R], at: usize, id: &Id) -> Option<usize>
    requires { at < length rows.now }
    ensures { result ≡ next_place (has_id R.key id.now) at rows.now }
{
    let (_, behind) = rows.split_at(at + 1);
    match first_place(behind, id) {
        Some(place) => Some(at + 1 + place),
        None => None,
    }
}

/// The place of the next row with the name of this one.
fn next_with_name<R: NameAndDomain>(rows: &[R], at: usize, row: &R) -> Option<usize>
    requires { at < length rows.now }
    ensures { result ≡ next_place (has_name R.named row.now) at rows.now }
{
    let (_, behind) = rows.split_at(at + 1);
    match name_place(behind, row) {
        Some(place) => Some(at + 1 + place),
        None => None,
    }
}

/// The places of the first two rows with the id.
pub(crate) fn id_meeting<R: Row>(rows: &[R], id: &Id) -> Option<(usize, usize)>
    ensures { result ≡ id_meeting R.key id.now rows.now }
{
    let first = first_place(rows, id)?;
    let later = next_with_id(rows, first, id)?;
    Some((first, later))
}

/// The places of the row with the id, and of the next one with its name.
pub(crate) fn name_meeting<R: NameAndDomain>(rows: &[R], id: &Id) -> Option<(usize, usize)>
    ensures { result ≡ name_meeting R.key R.named id.now rows.now }
{
    let first = first_place(rows, id)?;
    let row = first_row(rows, id)?;
    let later = next_with_name(rows, first, row)?;
    Some((first, later))
}
