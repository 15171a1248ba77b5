ghost use Rattle.ks_shape.specs.Places.{names_in, place_of};
ghost use Rattle.ks_shape.specs.Readings.{Reads};
ghost use Rattle.ks_shape.specs.Rows.{domain_of, group_of, id_at, made_of, project_of, role_of, user_of};

use crate::factors::factors;
use crate::node::Node;
use crate::types::{Falsehood, IdText, TextOf, Truth};
use ks_base::limits::{DESCRIPTION_BYTES, NAME_BYTES, PASSWORD_BYTES};
use ks_base::{Id, ShapeRefusal};
use ks_machine::{Made, MadeKind};

/// A name: 1 to 255 bytes.
pub const NAME: TextOf = TextOf {
    least: 1,
    most: NAME_BYTES,
};

/// A description: at most 4,096 bytes.
pub const DESCRIPTION: TextOf = TextOf {
    least: 0,
    most: DESCRIPTION_BYTES,
};

/// A password: 1 to 4,096 bytes.
pub const PASSWORD: TextOf = TextOf {
    least: 1,
    most: PASSWORD_BYTES,
};

/// The id, which a change alone reads.
pub(crate) fn id_at(new: bool, names: &[&str], body: &Node) -> Result<Option<Id>, ShapeRefusal>
    ensures { Reads result (id_at new (names_in names.now) (place_of body.now)) }
{
    if new {
        return Ok(None);
    }
    body.optional(names, &IdText)
}

#[tactic(auto, unfolding(crate::specs::Rows::domain_of))]
fn domain(new: bool, body: &Node) -> Result<Made, ShapeRefusal>
    ensures { Reads result (domain_of new (place_of body.now)) }
{
    let name = body.needed_if(new, &["domain", "name"], &NAME)?;
    let description = body.optional(&["domain", "description"], &DESCRIPTION)?;
    let enabled = body.optional(&["domain", "enabled"], &Truth)?;
    let id = id_at(new, &["domain", "id"], body)?;
    Ok(Made::Domain {
        id,
        name,
        description,
        enabled,
    })
}

#[tactic(auto, unfolding(crate::specs::Rows::project_of))]
fn project(new: bool, body: &Node) -> Result<Made, ShapeRefusal>
    ensures { Reads result (project_of new (place_of body.now)) }
{
    let name = body.needed_if(new, &["project", "name"], &NAME)?;
    let domain = body.optional(&["project", "domain_id"], &IdText)?;
    let parent = body.optional(&["project", "parent_id"], &IdText)?;
    let description = body.optional(&["project", "description"], &DESCRIPTION)?;
    let enabled = body.optional(&["project", "enabled"], &Truth)?;
    let _is_domain = body.optional(&["project", "is_domain"], &Falsehood)?;
    let id = id_at(new, &["project", "id"], body)?;
    Ok(Made::Project {
        id,
        name,
        domain,
        parent,
        description,
        enabled,
    })
}

#[tactic(auto, unfolding(crate::specs::Rows::user_of))]
fn user(new: bool, body: &Node) -> Result<Made, ShapeRefusal>
    ensures { Reads result (user_of new (place_of body.now)) }
{
    let name = body.needed_if(new, &["user", "name"], &NAME)?;
    let domain = body.optional(&["user", "domain_id"], &IdText)?;
    let password = body.optional(&["user", "password"], &PASSWORD)?;
    let enabled = body.optional(&["user", "enabled"], &Truth)?;
    let factors = factors(body)?;
    let id = id_at(new, &["user", "id"], body)?;
    Ok(Made::User {
        id,
        name,
        domain,
        password,
        enabled,
        factors,
    })
}

#[tactic(auto, unfolding(crate::specs::Rows::group_of))]
fn group(new: bool, body: &Node) -> Result<Made, ShapeRefusal>
    ensures { Reads result (group_of new (place_of body.now)) }
{
    let name = body.needed_if(new, &["group", "name"], &NAME)?;
    let domain = body.optional(&["group", "domain_id"], &IdText)?;
    let description = body.optional(&["group", "description"], &DESCRIPTION)?;
    let id = id_at(new, &["group", "id"], body)?;
    Ok(Made::Group {
        id,
        name,
        domain,
        description,
    })
}

#[tactic(auto, unfolding(crate::specs::Rows::role_of))]
fn role(new: bool, body: &Node) -> Result<Made, ShapeRefusal>
    ensures { Reads result (role_of new (place_of body.now)) }
{
    let name = body.needed_if(new, &["role", "name"], &NAME)?;
    let description = body.optional(&["role", "description"], &DESCRIPTION)?;
    let id = id_at(new, &["role", "id"], body)?;
    Ok(Made::Role {
        id,
        name,
        description,
    })
}

/// The body that makes or changes a row of the kind.
pub fn made(kind: MadeKind, new: bool, body: &Node) -> Result<Made, ShapeRefusal>
    ensures { Reads result (made_of kind new (place_of body.now)) }
{
    match kind {
        MadeKind::Domain => domain(new, body),
        MadeKind::Project => project(new, body),
        MadeKind::User => user(new, body),
        MadeKind::Group => group(new, body),
        MadeKind::Role => role(new, body),
    }
}
