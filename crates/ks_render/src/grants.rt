ghost use Rattle.std.specs.Prelude.{◌≡◌, [], ◌∷◌, codes, OnOk};
ghost use Rattle.ks_render.specs.Named.{id_value};
ghost use Rattle.ks_render.specs.Grants.{assignment_entries, assignment_value, inherited_entries, scope_value, target_entries};
ghost use Rattle.ks_render.specs.steps.Writing.{Enters, Tells};

use crate::tell::Tell;
use crate::tokens::write_system_entry;
use crate::writing::{write_id_object, write_str};
use json::Writer;
use ks_base::{Actor, GrantRow, Target, Text};
use std::alloc::AllocError;

fn write_inherited(out: &mut Writer, inherited: bool) -> Result<(), AllocError>
    ensures { OnOk result (Enters out.old out.new (inherited_entries inherited)) }
{
    if inherited {
        write_str(out, "OS-INHERIT:inherited_to", "projects")
    } else {
        Ok(())
    }
}

fn write_target(out: &mut Writer, target: &Target) -> Result<(), AllocError>
    ensures { OnOk result (Enters out.old out.new (target_entries target.now)) }
{
    match target {
        Target::Project(id) => write_id_object(out, "project", id),
        Target::Domain(id) => write_id_object(out, "domain", id),
        Target::System => write_system_entry(out),
    }
}

/// Writes where the role of a grant is granted.
fn write_scope(out: &mut Writer, grant: &GrantRow) -> Result<(), AllocError>
    ensures { OnOk result (Enters out.old out.new ((codes "scope", scope_value grant.now.inherited grant.now.target) ∷ [])) }
{
    out.key("scope")?;
    out.begin_object()?;
    write_inherited(out, grant.inherited)?;
    write_target(out, &grant.target)?;
    out.end_object()
}

/// Writes the role of a grant and where it is granted.
fn write_granted(out: &mut Writer, grant: &GrantRow) -> Result<(), AllocError>
    ensures { OnOk result (Enters out.old out.new ((codes "role", id_value grant.now.role) ∷ (codes "scope", scope_value grant.now.inherited grant.now.target) ∷ [])) }
{
    write_id_object(out, "role", &grant.role)?;
    write_scope(out, grant)
}

fn write_entries(out: &mut Writer, grant: &GrantRow) -> Result<(), AllocError>
    ensures { OnOk result (Enters out.old out.new (assignment_entries grant.now.actor (codes "role", id_value grant.now.role) (codes "scope", scope_value grant.now.inherited grant.now.target))) }
{
    match &grant.actor {
        Actor::Group(id) => {
            write_id_object(out, "group", id)?;
            write_granted(out, grant)
        }
        Actor::User(id) => {
            write_granted(out, grant)?;
            write_id_object(out, "user", id)
        }
    }
}

fn write_assignment(out: &mut Writer, grant: &GrantRow) -> Result<(), AllocError>
    ensures { OnOk result (Tells out.old out.new (assignment_value grant.now)) }
{
    out.begin_object()?;
    write_entries(out, grant)?;
    out.end_object()
}

impl Tell for GrantRow {
    ghost use Rattle.ks_render.specs.Grants.{assignment_value};

    ghost value = { λ url grant. assignment_value grant };

    ghost is_tellable = { λ grant. Unit {0} };

    fn tell(&self, out: &mut Writer, _url: &Text, _link: &mut String) -> Result<(), AllocError> {
        write_assignment(out, self)
    }
}
