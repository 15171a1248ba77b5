ghost use Rattle.std.specs.Prelude.{◌≡◌, [], ◌∷◌, codes, false, OnOk};
ghost use Rattle.serde_json.specs.Data.{boolean};
ghost use Rattle.ks_machine.specs.Told.{IsTokenTellable};
ghost use Rattle.ks_render.specs.Catalog.{services_told};
ghost use Rattle.ks_render.specs.Values.{entry_of};
ghost use Rattle.ks_render.specs.Named.{homed_value, titled_value, titles_value};
ghost use Rattle.ks_render.specs.Tokens.{audit_ids, audit_value, chain_values, method_values, methods_value, system_entries, system_value, token_body, token_value, trust_use_value, user_told};
ghost use Rattle.ks_render.specs.steps.Writing.{Enters, Lists, Tells};

use crate::catalog::write_catalog;
use crate::named::{write_homed, write_titled_entry, write_titles};
use crate::writing::{write_flag, write_id, write_id_object, write_null, write_text, write_time};
use base64::engine::general_purpose::URL_SAFE_NO_PAD;
use json::Writer;
use ks_base::Text;
use ks_catalog::ProjectCatalog;
use ks_machine::{Homed, Titled, TitledList, TokenOut, TrustUse};
use std::alloc::AllocError;

/// Writes an audit id, whose text is made in `room`.
pub fn write_audit(out: &mut Writer, audit: &[u8; 16], room: &mut String) -> Result<(), AllocError>
    ensures { OnOk result (Tells out.old out.new (audit_value audit.now)) }
{
    room.clear();
    URL_SAFE_NO_PAD.encode_string(audit, room)?;
    out.string(room.as_str())
}

fn write_chain(
    out: &mut Writer,
    chain: &Option<[u8; 16]>,
    room: &mut String,
) -> Result<(), AllocError>
    ensures { OnOk result (Lists out.old out.new (chain_values chain.now)) }
{
    match chain {
        Some(audit) => write_audit(out, audit, room),
        None => Ok(()),
    }
}

fn write_audit_ids(out: &mut Writer, told: &TokenOut, room: &mut String) -> Result<(), AllocError>
    ensures { OnOk result (Enters out.old out.new ((codes "audit_ids", audit_ids told.now) ∷ [])) }
{
    out.key("audit_ids")?;
    out.begin_array()?;
    write_audit(out, &told.audit, room)?;
    write_chain(out, &told.chain, room)?;
    out.end_array()
}

/// Writes the word of a method, where its bit is set.
#[tactic(auto, unfolding(crate::specs::Tokens::method_values))]
fn write_method(out: &mut Writer, methods: u8, bit: u8, word: &str) -> Result<(), AllocError>
    ensures { OnOk result (Lists out.old out.new (method_values methods bit word.now)) }
{
    if methods & bit == 0 {
        Ok(())
    } else {
        out.string(word)
    }
}

fn write_methods(out: &mut Writer, methods: u8) -> Result<(), AllocError>
    ensures { OnOk result (Enters out.old out.new ((codes "methods", methods_value methods) ∷ [])) }
{
    out.key("methods")?;
    out.begin_array()?;
    write_method(out, methods, 1, "password")?;
    write_method(out, methods, 2, "token")?;
    write_method(out, methods, 4, "totp")?;
    write_method(out, methods, 8, "application_credential")?;
    out.end_array()
}

fn write_trust_use(out: &mut Writer, trust: &TrustUse) -> Result<(), AllocError>
    ensures { OnOk result (Enters out.old out.new ((codes "OS-TRUST:trust", trust_use_value trust.now) ∷ [])) }
{
    out.key("OS-TRUST:trust")?;
    out.begin_object()?;
    write_id(out, "id", &trust.id)?;
    write_flag(out, "impersonation", trust.impersonation)?;
    write_id_object(out, "trustee_user", &trust.trustee)?;
    write_id_object(out, "trustor_user", &trust.trustor)?;
    out.end_object()
}

fn write_trust(out: &mut Writer, trust: &Option<TrustUse>) -> Result<(), AllocError>
    ensures { OnOk result (Enters out.old out.new (entry_of (codes "OS-TRUST:trust") trust_use_value trust.now)) }
{
    match trust {
        Some(trust) => write_trust_use(out, trust),
        None => Ok(()),
    }
}

/// Writes the catalog of a token with a scope.
fn write_scope_catalog(
    out: &mut Writer,
    catalog: &Option<ProjectCatalog>,
    link: &mut String,
) -> Result<(), AllocError>
    ensures { OnOk result (Enters out.old out.new (entry_of (codes "catalog") services_told catalog.now)) }
{
    match catalog {
        Some(catalog) => write_catalog(out, catalog, link),
        None => Ok(()),
    }
}

fn write_roles(
    out: &mut Writer,
    roles: &Option<TitledList>,
    url: &Text,
    link: &mut String,
) -> Result<(), AllocError>
    ensures { OnOk result (Enters out.old out.new (entry_of (codes "roles") titles_value roles.now)) }
{
    match roles {
        Some(roles) => {
            out.key("roles")?;
            write_titles(out, roles, url, link)
        }
        None => Ok(()),
    }
}

fn write_domain(out: &mut Writer, domain: &Option<Titled>) -> Result<(), AllocError>
    ensures { OnOk result (Enters out.old out.new (entry_of (codes "domain") titled_value domain.now)) }
{
    match domain {
        Some(domain) => write_titled_entry(out, "domain", domain),
        None => Ok(()),
    }
}

/// Writes that the project of a token is no domain.
fn write_is_domain(out: &mut Writer, project: &Option<Homed>) -> Result<(), AllocError>
    ensures { OnOk result (Enters out.old out.new (entry_of (codes "is_domain") (λ project. boolean false) project.now)) }
{
    match project {
        Some(_) => write_flag(out, "is_domain", false),
        None => Ok(()),
    }
}

fn write_project(out: &mut Writer, project: &Option<Homed>) -> Result<(), AllocError>
    ensures { OnOk result (Enters out.old out.new (entry_of (codes "project") homed_value project.now)) }
{
    match project {
        Some(project) => {
            out.key("project")?;
            write_homed(out, project)
        }
        None => Ok(()),
    }
}

/// Writes that something is for the whole system.
pub fn write_system_entry(out: &mut Writer) -> Result<(), AllocError>
    ensures { OnOk result (Enters out.old out.new ((codes "system", system_value) ∷ [])) }
{
    out.key("system")?;
    out.begin_object()?;
    write_flag(out, "all", true)?;
    out.end_object()
}

fn write_system(out: &mut Writer, system: bool) -> Result<(), AllocError>
    ensures { OnOk result (Enters out.old out.new (system_entries system)) }
{
    if system {
        write_system_entry(out)
    } else {
        Ok(())
    }
}

fn write_user(out: &mut Writer, user: &Homed) -> Result<(), AllocError>
    ensures { OnOk result (Enters out.old out.new ((codes "user", user_told user.now) ∷ [])) }
{
    out.key("user")?;
    out.begin_object()?;
    write_titled_entry(out, "domain", &user.domain)?;
    write_id(out, "id", &user.id)?;
    write_text(out, "name", &user.name)?;
    write_null(out, "password_expires_at")?;
    out.end_object()
}

fn write_token_value(
    out: &mut Writer,
    told: &TokenOut,
    url: &Text,
    link: &mut String,
) -> Result<(), AllocError>
    requires { IsTokenTellable told.now }
    ensures { OnOk result (Tells out.old out.new (token_value told.now)) }
{
    out.begin_object()?;
    write_trust(out, &told.trust)?;
    write_audit_ids(out, told, link)?;
    write_scope_catalog(out, &told.catalog, link)?;
    write_domain(out, &told.domain)?;
    write_time(out, "expires_at", told.expires)?;
    write_is_domain(out, &told.project)?;
    write_time(out, "issued_at", told.issued)?;
    write_methods(out, told.methods)?;
    write_project(out, &told.project)?;
    write_roles(out, &told.roles, url, link)?;
    write_system(out, told.system)?;
    write_user(out, &told.user)?;
    out.end_object()
}

/// Writes what is told of a token. `link` is room for texts.
pub fn write_token(
    out: &mut Writer,
    told: &TokenOut,
    url: &Text,
    link: &mut String,
) -> Result<(), AllocError>
    requires { IsTokenTellable told.now }
    ensures { OnOk result (Tells out.old out.new (token_body told.now)) }
{
    out.begin_object()?;
    out.key("token")?;
    write_token_value(out, told, url, link)?;
    out.end_object()
}
