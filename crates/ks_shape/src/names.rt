ghost use Rattle.ks_json.specs.View.{items_view};
ghost use Rattle.ks_shape.specs.Names.{all_named, cred_at, name_and_domain, name_and_user, named_at, own_id, own_name, project_at, user_at};
ghost use Rattle.ks_shape.specs.Places.{place_of};
ghost use Rattle.ks_shape.specs.Readings.{Reads};

use crate::node::Node;
use crate::rows::NAME;
use crate::types::IdText;
use ks_base::{Id, ShapeRefusal, Text};
use ks_json::Value;
use ks_machine::{CredNamed, Named, NamedList, ProjectNamed, UserNamed};
use std::alloc::Global;

fn own_id(node: &Node) -> Result<Option<Id>, ShapeRefusal>
    ensures { Reads result (own_id (place_of node.now)) }
{
    node.optional(&["id"], &IdText)
}

fn own_name(node: &Node) -> Result<Text, ShapeRefusal>
    ensures { Reads result (own_name (place_of node.now)) }
{
    node.needed(&["name"], &NAME)
}

/// The row that a place names by an id, or where there is none by a name.
#[tactic(auto, unfolding(crate::specs::Names::named_at))]
pub fn named(node: &Node) -> Result<Named, ShapeRefusal>
    ensures { Reads result (named_at (place_of node.now)) }
{
    if let Some(id) = own_id(node)? {
        return Ok(Named::Id(id));
    }
    let name = own_name(node)?;
    Ok(Named::Name(name))
}

/// A name, and the domain that it is unique in.
#[tactic(auto, unfolding(crate::specs::Names::name_and_domain))]
fn name_and_domain(node: &Node) -> Result<(Text, Named), ShapeRefusal>
    ensures { Reads result (name_and_domain (place_of node.now)) }
{
    let name = own_name(node)?;
    let below = node.at(&["domain"])?;
    let domain = named(&below)?;
    Ok((name, domain))
}

#[tactic(auto, unfolding(crate::specs::Names::user_at))]
pub fn user(node: &Node) -> Result<UserNamed, ShapeRefusal>
    ensures { Reads result (user_at (place_of node.now)) }
{
    if let Some(id) = own_id(node)? {
        return Ok(UserNamed::Id(id));
    }
    let (name, domain) = name_and_domain(node)?;
    Ok(UserNamed::Name(name, domain))
}

#[tactic(auto, unfolding(crate::specs::Names::project_at))]
pub fn project(node: &Node) -> Result<ProjectNamed, ShapeRefusal>
    ensures { Reads result (project_at (place_of node.now)) }
{
    if let Some(id) = own_id(node)? {
        return Ok(ProjectNamed::Id(id));
    }
    let (name, domain) = name_and_domain(node)?;
    Ok(ProjectNamed::Name(name, domain))
}

/// A name, and the user of whose credentials it is the name.
#[tactic(auto, unfolding(crate::specs::Names::name_and_user))]
fn name_and_user(node: &Node) -> Result<(Text, UserNamed), ShapeRefusal>
    ensures { Reads result (name_and_user (place_of node.now)) }
{
    let name = own_name(node)?;
    let below = node.at(&["user"])?;
    let user = user(&below)?;
    Ok((name, user))
}

#[tactic(auto, unfolding(crate::specs::Names::cred_at))]
pub fn cred(node: &Node) -> Result<CredNamed, ShapeRefusal>
    ensures { Reads result (cred_at (place_of node.now)) }
{
    if let Some(id) = own_id(node)? {
        return Ok(CredNamed::Id(id));
    }
    let (name, user) = name_and_user(node)?;
    Ok(CredNamed::Name(name, user))
}

/// What each of these values names; all are known by the path.
pub fn all_named(
    alloc: Global,
    path: &Text,
    values: &[Value<'_>],
) -> Result<NamedList, ShapeRefusal>
    ensures { Reads result (all_named path.now (items_view values.now)) }
{
    let mut rows = NamedList::new(alloc);
    for value in values {
        let own = path.copy()?;
        let entry = Node::known_as(alloc, own, value);
        let row = named(&entry)?;
        rows.push(row)?;
    }
    Ok(rows)
}
