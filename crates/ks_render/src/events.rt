ghost use Rattle.std.specs.Prelude.{◌≡◌, [], ◌∷◌, codes, OnOk};
ghost use Rattle.serde_json.specs.Data.{string};
ghost use Rattle.ks_machine.specs.Ranges.{IsExpiry};
ghost use Rattle.ks_machine.specs.Told.{IsEventTellable};
ghost use Rattle.ks_render.specs.Events.{event_entries, event_value, issued_before, revoked_at};
ghost use Rattle.ks_render.specs.Tokens.{audit_value};
ghost use Rattle.ks_render.specs.steps.Writing.{Enters, Tells};

use crate::tell::Tell;
use crate::tokens::write_audit;
use crate::writing::{write_id, write_time};
use json::Writer;
use ks_base::{EventRow, Id, Revoke, Text};
use std::alloc::AllocError;

fn write_audit_entry(
    out: &mut Writer,
    audit: &[u8; 16],
    room: &mut String,
) -> Result<(), AllocError>
    ensures { OnOk result (Enters out.old out.new ((codes "audit_id", audit_value audit.now) ∷ [])) }
{
    out.key("audit_id")?;
    write_audit(out, audit, room)
}

fn write_moments(out: &mut Writer, moment: u64) -> Result<(), AllocError>
    requires { IsExpiry moment }
    ensures { OnOk result (Enters out.old out.new (issued_before moment ∷ revoked_at moment ∷ [])) }
{
    write_time(out, "issued_before", moment)?;
    write_time(out, "revoked_at", moment)
}

/// Writes that the token of an audit id is revoked.
fn write_of_token(
    out: &mut Writer,
    audit: &[u8; 16],
    moment: u64,
    room: &mut String,
) -> Result<(), AllocError>
    requires { IsExpiry moment }
    ensures { OnOk result (Enters out.old out.new ((codes "audit_id", audit_value audit.now) ∷ issued_before moment ∷ revoked_at moment ∷ [])) }
{
    write_audit_entry(out, audit, room)?;
    write_moments(out, moment)
}

/// Writes that the tokens of what has this id are revoked, where its name comes before the moments.
fn write_of_id(out: &mut Writer, name: &str, id: &Id, moment: u64) -> Result<(), AllocError>
    requires { IsExpiry moment }
    ensures { OnOk result (Enters out.old out.new ((name.now, string id.now) ∷ issued_before moment ∷ revoked_at moment ∷ [])) }
{
    write_id(out, name, id)?;
    write_moments(out, moment)
}

/// Writes that the tokens of a project are revoked.
fn write_of_project(out: &mut Writer, id: &Id, moment: u64) -> Result<(), AllocError>
    requires { IsExpiry moment }
    ensures { OnOk result (Enters out.old out.new (issued_before moment ∷ (codes "project_id", string id.now) ∷ revoked_at moment ∷ [])) }
{
    write_time(out, "issued_before", moment)?;
    write_id(out, "project_id", id)?;
    write_time(out, "revoked_at", moment)
}

/// Writes that the tokens of a user are revoked.
fn write_of_user(out: &mut Writer, id: &Id, moment: u64) -> Result<(), AllocError>
    requires { IsExpiry moment }
    ensures { OnOk result (Enters out.old out.new (issued_before moment ∷ revoked_at moment ∷ (codes "user_id", string id.now) ∷ [])) }
{
    write_moments(out, moment)?;
    write_id(out, "user_id", id)
}

fn write_entries(
    out: &mut Writer,
    what: &Revoke,
    moment: u64,
    room: &mut String,
) -> Result<(), AllocError>
    requires { IsExpiry moment }
    ensures { OnOk result (Enters out.old out.new (event_entries what.now moment)) }
{
    match what {
        Revoke::Audit(audit) => write_of_token(out, audit, moment, room),
        Revoke::User(id) => write_of_user(out, id, moment),
        Revoke::Project(id) => write_of_project(out, id, moment),
        Revoke::Domain(id) => write_of_id(out, "domain_id", id, moment),
        Revoke::Trust(id) => write_of_id(out, "OS-TRUST:trust_id", id, moment),
    }
}

fn write_event(out: &mut Writer, event: &EventRow, room: &mut String) -> Result<(), AllocError>
    requires { IsEventTellable event.now }
    ensures { OnOk result (Tells out.old out.new (event_value event.now)) }
{
    out.begin_object()?;
    write_entries(out, &event.what, event.moment, room)?;
    out.end_object()
}

impl Tell for EventRow {
    ghost use Rattle.ks_machine.specs.Told.{IsEventTellable};
    ghost use Rattle.ks_render.specs.Events.{event_value};

    ghost value = { λ url event. event_value event };

    ghost is_tellable = { IsEventTellable };

    fn tell(&self, out: &mut Writer, _url: &Text, link: &mut String) -> Result<(), AllocError> {
        write_event(out, self, link)
    }
}
