ghost use Rattle.std.specs.Prelude.{◌≡◌};
ghost use Rattle.ks_json.specs.View.{view};
ghost use Rattle.ks_shape.specs.Logins.{domain_scope, is_given, object_scope, project_scope, scope_at, system_scope, trust_scope, unscoped_text};
ghost use Rattle.ks_shape.specs.Places.{place_of};
ghost use Rattle.ks_shape.specs.Readings.{Fits, Reads};

use crate::fields::unless_null;
use crate::misfit::{Misfit, Unread};
use crate::names::{named, project};
use crate::node::Node;
use crate::types::{Affirmation, IdText, any_text, need};
use ks_base::ShapeRefusal;
use ks_json::Value;
use ks_machine::ScopeIn;

#[tactic(auto, unfolding(crate::specs::Logins::unscoped_text))]
fn unscoped_text(value: &Value<'_>) -> Result<ScopeIn, Unread>
    ensures { Fits result (unscoped_text (view value.now)) }
{
    let text = any_text(value)?;
    need(text == "unscoped", Misfit::Range)?;
    Ok(ScopeIn::Unscoped)
}

#[tactic(auto, unfolding(crate::specs::Logins::domain_scope))]
fn domain_scope(node: &Node) -> Result<ScopeIn, ShapeRefusal>
    ensures { Reads result (domain_scope (place_of node.now)) }
{
    let below = node.at(&["domain"])?;
    let domain = named(&below)?;
    Ok(ScopeIn::Domain(domain))
}

#[tactic(auto, unfolding(crate::specs::Logins::project_scope))]
fn project_scope(node: &Node) -> Result<ScopeIn, ShapeRefusal>
    ensures { Reads result (project_scope (place_of node.now)) }
{
    let below = node.at(&["project"])?;
    let project = project(&below)?;
    Ok(ScopeIn::Project(project))
}

#[tactic(auto, unfolding(crate::specs::Logins::trust_scope))]
fn trust_scope(node: &Node) -> Result<ScopeIn, ShapeRefusal>
    ensures { Reads result (trust_scope (place_of node.now)) }
{
    let id = node.needed(&["OS-TRUST:trust", "id"], &IdText)?;
    Ok(ScopeIn::Trust(id))
}

#[tactic(auto, unfolding(crate::specs::Logins::system_scope))]
fn system_scope(node: &Node) -> Result<ScopeIn, ShapeRefusal>
    ensures { Reads result (system_scope (place_of node.now)) }
{
    let _all = node.needed(&["system", "all"], &Affirmation)?;
    Ok(ScopeIn::System)
}

fn is_given(name: &str, value: &Value<'_>) -> bool
    ensures { result ≡ is_given name.now (view value.now) }
{
    unless_null(value.get(name)).is_some()
}

/// The scope that an object at the node says, by exactly one of its five members.
#[tactic(auto, using(crate::proofs::RefusalLemmas::refused), unfolding(crate::specs::Logins::object_scope, crate::specs::Places::path_below))]
fn object_scope(value: &Value<'_>, node: &Node) -> Result<ScopeIn, ShapeRefusal>
    ensures { Reads result (object_scope (view value.now) (place_of node.now)) }
{
    let unscoped = is_given("unscoped", value);
    let domain = is_given("domain", value);
    let project = is_given("project", value);
    let system = is_given("system", value);
    let trust = is_given("OS-TRUST:trust", value);
    match (unscoped, domain, project, system, trust) {
        (true, false, false, false, false) => Ok(ScopeIn::Unscoped),
        (false, true, false, false, false) => domain_scope(node),
        (false, false, true, false, false) => project_scope(node),
        (false, false, false, true, false) => system_scope(node),
        (false, false, false, false, true) => trust_scope(node),
        _ => node.refuse(&[], Misfit::Range),
    }
}

/// The scope that a node says.
#[tactic(auto, unfolding(crate::specs::Places::path_below))]
pub fn scope(node: &Node) -> Result<ScopeIn, ShapeRefusal>
    ensures { Reads result (scope_at (place_of node.now)) }
{
    let Some(value) = unless_null(node.value()) else {
        return Ok(ScopeIn::Nothing);
    };
    if value.is_object() {
        return object_scope(value, node);
    }
    node.judged(&[], unscoped_text(value))
}
