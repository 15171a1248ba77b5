ghost use Rattle.std.specs.Prelude.{◌≡◌, [], ◌∷◌, IfSome, OnOk};
ghost use Rattle.ks_machine.specs.Ranges.{IsExpiry};
ghost use Rattle.ks_machine.specs.Told.{IsRowTellable};
ghost use Rattle.ks_render.specs.Rows.{domain_value, group_value, one_body, project_value, role_value, row_name, row_value, trust_value, user_value};
ghost use Rattle.ks_render.specs.steps.Writing.{Enters, Tells};

use crate::catalog::{write_endpoint, write_region, write_service};
use crate::credentials::{write_app_cred, write_secret};
use crate::named::write_titles;
use crate::tell::Tell;
use crate::writing::{
    write_count, write_count_or_null, write_flag, write_id, write_id_or_null, write_null,
    write_self, write_text, write_time_or_null,
};
use json::Writer;
use ks_base::{DomainRow, GroupRow, ProjectRow, RoleRow, Text, TrustRow, UserRow};
use ks_machine::{Row, TitledList};
use std::alloc::AllocError;

fn write_domain(
    out: &mut Writer,
    row: &DomainRow,
    url: &Text,
    link: &mut String,
) -> Result<(), AllocError>
    ensures { OnOk result (Tells out.old out.new (domain_value url.now row.now)) }
{
    out.begin_object()?;
    write_text(out, "description", &row.description)?;
    write_flag(out, "enabled", row.enabled)?;
    write_id(out, "id", &row.id)?;
    write_self(out, url, "/v3/domains/", &row.id, link)?;
    write_text(out, "name", &row.name)?;
    out.end_object()
}

fn write_project(
    out: &mut Writer,
    row: &ProjectRow,
    url: &Text,
    link: &mut String,
) -> Result<(), AllocError>
    ensures { OnOk result (Tells out.old out.new (project_value url.now row.now)) }
{
    out.begin_object()?;
    write_text(out, "description", &row.description)?;
    write_id(out, "domain_id", &row.domain)?;
    write_flag(out, "enabled", row.enabled)?;
    write_id(out, "id", &row.id)?;
    write_flag(out, "is_domain", false)?;
    write_self(out, url, "/v3/projects/", &row.id, link)?;
    write_text(out, "name", &row.name)?;
    write_id(out, "parent_id", &row.parent)?;
    out.end_object()
}

fn write_user(
    out: &mut Writer,
    row: &UserRow,
    url: &Text,
    link: &mut String,
) -> Result<(), AllocError>
    ensures { OnOk result (Tells out.old out.new (user_value url.now row.now)) }
{
    out.begin_object()?;
    write_id(out, "domain_id", &row.domain)?;
    write_flag(out, "enabled", row.enabled)?;
    write_id(out, "id", &row.id)?;
    write_self(out, url, "/v3/users/", &row.id, link)?;
    write_text(out, "name", &row.name)?;
    write_null(out, "password_expires_at")?;
    out.end_object()
}

fn write_group(
    out: &mut Writer,
    row: &GroupRow,
    url: &Text,
    link: &mut String,
) -> Result<(), AllocError>
    ensures { OnOk result (Tells out.old out.new (group_value url.now row.now)) }
{
    out.begin_object()?;
    write_text(out, "description", &row.description)?;
    write_id(out, "domain_id", &row.domain)?;
    write_id(out, "id", &row.id)?;
    write_self(out, url, "/v3/groups/", &row.id, link)?;
    write_text(out, "name", &row.name)?;
    out.end_object()
}

fn write_role(
    out: &mut Writer,
    row: &RoleRow,
    url: &Text,
    link: &mut String,
) -> Result<(), AllocError>
    ensures { OnOk result (Tells out.old out.new (role_value url.now row.now)) }
{
    out.begin_object()?;
    write_text(out, "description", &row.description)?;
    write_null(out, "domain_id")?;
    write_id(out, "id", &row.id)?;
    write_self(out, url, "/v3/roles/", &row.id, link)?;
    write_text(out, "name", &row.name)?;
    out.end_object()
}

/// Writes a trust, and its roles with their names.
fn write_trust(
    out: &mut Writer,
    trust: &TrustRow,
    roles: &TitledList,
    url: &Text,
    link: &mut String,
) -> Result<(), AllocError>
    requires { IfSome trust.now.expires IsExpiry }
    ensures { OnOk result (Tells out.old out.new (trust_value url.now trust.now roles.now)) }
{
    out.begin_object()?;
    write_null(out, "deleted_at")?;
    write_time_or_null(out, "expires_at", trust.expires)?;
    write_id(out, "id", &trust.id)?;
    write_flag(out, "impersonation", trust.impersonation)?;
    write_self(out, url, "/v3/OS-TRUST/trusts/", &trust.id, link)?;
    write_id(out, "project_id", &trust.project)?;
    write_id_or_null(out, "redelegated_trust_id", &trust.parent)?;
    write_count(out, "redelegation_count", u64::from(trust.count))?;
    write_count_or_null(out, "remaining_uses", trust.remaining)?;
    out.key("roles")?;
    write_titles(out, roles, url, link)?;
    write_id(out, "trustee_user_id", &trust.trustee)?;
    write_id(out, "trustor_user_id", &trust.trustor)?;
    out.end_object()
}

fn write_row(out: &mut Writer, row: &Row, url: &Text, link: &mut String) -> Result<(), AllocError>
    requires { IsRowTellable row.now }
    ensures { OnOk result (Tells out.old out.new (row_value url.now row.now)) }
{
    match row {
        Row::Domain(row) => write_domain(out, row, url, link),
        Row::Project(row) => write_project(out, row, url, link),
        Row::User(row) => write_user(out, row, url, link),
        Row::Group(row) => write_group(out, row, url, link),
        Row::Role(row) => write_role(out, row, url, link),
        Row::Trust(row, roles) => write_trust(out, row, roles, url, link),
        Row::Region(row) => write_region(out, row, url, link),
        Row::Service(row) => write_service(out, row, url, link),
        Row::Endpoint(row) => write_endpoint(out, row, url, link),
        Row::AppCred(row, roles) => write_app_cred(out, row, roles, None, url, link),
        Row::Secret(row) => write_secret(out, row, url, link),
    }
}

/// The name of a row that is told alone.
#[tactic(auto, unfolding(crate::specs::Rows::row_name))]
fn row_name(row: &Row) -> &'static str
    ensures { result.now ≡ row_name row.now }
{
    match row {
        Row::Domain(_) => "domain",
        Row::Project(_) => "project",
        Row::User(_) => "user",
        Row::Group(_) => "group",
        Row::Role(_) => "role",
        Row::Trust(_, _) => "trust",
        Row::Region(_) => "region",
        Row::Service(_) => "service",
        Row::Endpoint(_) => "endpoint",
        Row::AppCred(_, _) => "application_credential",
        Row::Secret(_) => "credential",
    }
}

/// Writes a row alone, under the name of its kind.
pub fn write_one(
    out: &mut Writer,
    row: &Row,
    url: &Text,
    link: &mut String,
) -> Result<(), AllocError>
    requires { IsRowTellable row.now }
    ensures { OnOk result (Tells out.old out.new (one_body url.now row.now)) }
{
    out.begin_object()?;
    out.key(row_name(row))?;
    write_row(out, row, url, link)?;
    out.end_object()
}

impl Tell for RoleRow {
    ghost use Rattle.ks_render.specs.Rows.{role_value};

    ghost value = { role_value };

    ghost is_tellable = { λ role. Unit {0} };

    fn tell(&self, out: &mut Writer, url: &Text, link: &mut String) -> Result<(), AllocError> {
        write_role(out, self, url, link)
    }
}

impl Tell for Row {
    ghost use Rattle.ks_machine.specs.Told.{IsRowTellable};
    ghost use Rattle.ks_render.specs.Rows.{row_value};

    ghost value = { row_value };

    ghost is_tellable = { IsRowTellable };

    fn tell(&self, out: &mut Writer, url: &Text, link: &mut String) -> Result<(), AllocError> {
        write_row(out, self, url, link)
    }
}
