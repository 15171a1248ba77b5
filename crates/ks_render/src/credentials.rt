//! What is told of application credentials and of secrets of one-time codes.
ghost use Rattle.std.specs.Prelude.{◌≡◌, [], ◌∷◌, ◌++◌, codes, IfSome, OnOk, string_bytes};
ghost use Rattle.std.specs.Option.{option_copied};
ghost use Rattle.serde_json.specs.Data.{string};
ghost use Rattle.ks_totp.specs.Base32.{base32_of};
ghost use Rattle.ks_machine.specs.Ranges.{IsExpiry};
ghost use Rattle.ks_render.specs.Named.{self_value};
ghost use Rattle.ks_render.specs.Credentials.{app_cred_value, app_creds_place, app_cred_made, secret_value};
ghost use Rattle.ks_render.specs.steps.Writing.{Enters, Tells};

use crate::named::write_titles;
use crate::writing::{
    push, push_id, write_flag, write_given, write_id, write_link, write_null, write_self,
    write_str, write_text, write_time_or_null,
};
use json::Writer;
use ks_base::{AppCredRow, Bytes, SecretRow, Text};
use ks_machine::TitledList;
use ks_totp::write_base32;
use std::alloc::{AllocError, Global};

/// Makes the text of where a credential stands, in place of what `link` held.
fn make_link(link: &mut String, url: &Text, cred: &AppCredRow) -> Result<(), AllocError>
    ensures { OnOk result (string_bytes link.new ≡ url.now ++ (app_creds_place cred.now.user ++ cred.now.id)) }
{
    link.clear();
    push(link, url.as_str())?;
    push(link, "/v3/users/")?;
    push_id(link, &cred.user)?;
    push(link, "/application_credentials/")?;
    push_id(link, &cred.id)
}

/// Writes under the name `links` where a credential stands.
#[tactic(auto, unfolding(crate::specs::Named::self_value))]
fn write_place(
    out: &mut Writer,
    cred: &AppCredRow,
    url: &Text,
    link: &mut String,
) -> Result<(), AllocError>
    ensures { OnOk result (Enters out.old out.new ((codes "links", self_value url.now (app_creds_place cred.now.user) cred.now.id) ∷ [])) }
{
    make_link(link, url, cred)?;
    write_link(out, link.as_str())
}

/// Writes an application credential, its roles with their names, and its secret where that is given.
pub fn write_app_cred(
    out: &mut Writer,
    cred: &AppCredRow,
    roles: &TitledList,
    secret: Option<&Text>,
    url: &Text,
    link: &mut String,
) -> Result<(), AllocError>
    requires { IfSome cred.now.expires IsExpiry }
    ensures { OnOk result (Tells out.old out.new (app_cred_value url.now cred.now roles.now (option_copied secret.entry))) }
{
    out.begin_object()?;
    write_text(out, "description", &cred.description)?;
    write_time_or_null(out, "expires_at", cred.expires)?;
    write_id(out, "id", &cred.id)?;
    write_place(out, cred, url, link)?;
    write_text(out, "name", &cred.name)?;
    write_id(out, "project_id", &cred.project)?;
    out.key("roles")?;
    write_titles(out, roles, url, link)?;
    write_given(out, "secret", secret)?;
    write_flag(out, "unrestricted", cred.unrestricted)?;
    write_id(out, "user_id", &cred.user)?;
    out.end_object()
}

/// Writes a new application credential, with its secret.
pub fn write_app_cred_made(
    out: &mut Writer,
    cred: &AppCredRow,
    roles: &TitledList,
    secret: &Text,
    url: &Text,
    link: &mut String,
) -> Result<(), AllocError>
    requires { IfSome cred.now.expires IsExpiry }
    ensures { OnOk result (Tells out.old out.new (app_cred_made url.now cred.now roles.now secret.now)) }
{
    out.begin_object()?;
    out.key("application_credential")?;
    write_app_cred(out, cred, roles, Some(secret), url, link)?;
    out.end_object()
}

/// Writes the text of a secret of one-time codes.
fn write_blob(out: &mut Writer, alloc: Global, secret: &Bytes) -> Result<(), AllocError>
    ensures { OnOk result (Enters out.old out.new ((codes "blob", string (base32_of secret.now)) ∷ [])) }
{
    match write_base32(alloc, secret.as_slice()) {
        Ok(blob) => write_text(out, "blob", &blob),
        Err(_) => Err(AllocError),
    }
}

/// Writes a secret of one-time codes.
pub fn write_secret(
    out: &mut Writer,
    row: &SecretRow,
    url: &Text,
    link: &mut String,
) -> Result<(), AllocError>
    ensures { OnOk result (Tells out.old out.new (secret_value url.now row.now)) }
{
    out.begin_object()?;
    write_blob(out, *link.allocator(), &row.secret)?;
    write_id(out, "id", &row.id)?;
    write_self(out, url, "/v3/credentials/", &row.id, link)?;
    write_null(out, "project_id")?;
    write_str(out, "type", "totp")?;
    write_id(out, "user_id", &row.user)?;
    out.end_object()
}
