//! The body that makes an application credential.
ghost use Rattle.std.specs.Prelude.{◌≡◌, [], IfOk, unwrap_or};
ghost use Rattle.ks_shape.specs.AppCreds.{app_cred_of, roles_given};
ghost use Rattle.ks_shape.specs.Places.{names_in, place_of};
ghost use Rattle.ks_shape.specs.Readings.{Reads};

use crate::names::all_named;
use crate::node::Node;
use crate::rows::{DESCRIPTION, NAME};
use crate::types::{TextOf, TimeText, Truth};
use ks_base::limits::{NAME_BYTES, TRUST_ROLES};
use ks_base::{Memory, ShapeRefusal, Text};
use ks_machine::{AppCredBody, NamedList};
use std::alloc::Global;

/// The secret of an application credential: 1 to 255 bytes.
pub const CRED_SECRET: TextOf = TextOf {
    least: 1,
    most: NAME_BYTES,
};

/// Roles that may be absent.
#[tactic(auto, unfolding(crate::specs::AppCreds::roles_given))]
fn roles(names: &[&str], body: &Node) -> Result<Option<NamedList>, ShapeRefusal>
    ensures { Reads result (roles_given (names_in names.now) (place_of body.now)) }
{
    let Some(values) = body.optional_list(names, TRUST_ROLES)? else {
        return Ok(None);
    };
    let path = body.path_at(names)?;
    let roles = all_named(body.alloc, &path, values)?;
    Ok(Some(roles))
}

/// The text, or the empty one where there is none.
fn text_or_empty(alloc: Global, text: Option<Text>) -> Result<Text, Memory>
    ensures { IfOk result (λ made. made ≡ unwrap_or text []) }
{
    match text {
        Some(text) => Ok(text),
        None => Text::of(alloc, ""),
    }
}

/// The body that makes an application credential.
#[tactic(auto, unfolding(crate::specs::AppCreds::app_cred_of))]
pub fn app_cred(body: &Node) -> Result<AppCredBody, ShapeRefusal>
    ensures { Reads result (app_cred_of (place_of body.now)) }
{
    let name = body.needed(&["application_credential", "name"], &NAME)?;
    let secret = body.optional(&["application_credential", "secret"], &CRED_SECRET)?;
    let description = body.optional(&["application_credential", "description"], &DESCRIPTION)?;
    let expires = body.optional(&["application_credential", "expires_at"], &TimeText)?;
    let roles = roles(&["application_credential", "roles"], body)?;
    let unrestricted = body.optional(&["application_credential", "unrestricted"], &Truth)?;
    let _no_rules = body.optional_list(&["application_credential", "access_rules"], 0)?;
    let description = text_or_empty(body.alloc, description)?;
    Ok(AppCredBody {
        name,
        secret,
        description,
        expires,
        roles,
        unrestricted: unrestricted.unwrap_or(false),
    })
}
