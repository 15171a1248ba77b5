ghost use Rattle.std.specs.Prelude.{◌≡◌, Some};
ghost use Rattle.ks_json.specs.View.{view};
ghost use Rattle.ks_base.specs.declared.shapes.ShapeFault.TheVariants as fault;
ghost use Rattle.ks_shape.specs.Bodies.{body_of, catalog_body_of, document, form_of, password_of, whole_document};
ghost use Rattle.ks_shape.specs.Places.{place_of};
ghost use Rattle.ks_base.specs.Results.{found};
ghost use Rattle.ks_shape.specs.Readings.{Reads, ReadsBy};

use crate::app_cred::app_cred;
use crate::catalog::catalog_row;
use crate::form::{BodyIn, Form};
use crate::login::login;
use crate::node::Node;
use crate::rows::{PASSWORD, made};
use crate::secret::secret;
use crate::trust::trust;
use ks_base::{Boxed, CatalogIn, CatalogKind, ShapeFault, ShapeRefusal, Text};
use ks_json::{ReadFault, Scratch, Value};
use std::alloc::Global;

#[tactic(auto, unfolding(crate::specs::Bodies::password_of))]
fn password(body: &Node) -> Result<BodyIn, ShapeRefusal>
    ensures { Reads result (password_of (place_of body.now)) }
{
    let original = body.needed(&["user", "original_password"], &PASSWORD)?;
    let password = body.needed(&["user", "password"], &PASSWORD)?;
    Ok(BodyIn::Password(original, password))
}

/// What the document at the node asks for.
#[tactic(auto, unfolding(crate::specs::Bodies::form_of))]
fn read_form(form: Form, body: &Node) -> Result<BodyIn, ShapeRefusal>
    ensures { Reads result (form_of form (place_of body.now)) }
{
    match form {
        Form::Login => Ok(BodyIn::Login(Boxed::new(body.alloc, login(body)?)?)),
        Form::Made(kind, new) => Ok(BodyIn::Made(Boxed::new(body.alloc, made(kind, new, body)?)?)),
        Form::Password => password(body),
        Form::Trust => Ok(BodyIn::Trust(Boxed::new(body.alloc, trust(body)?)?)),
        Form::AppCred => Ok(BodyIn::AppCred(Boxed::new(body.alloc, app_cred(body)?)?)),
        Form::Secret => Ok(BodyIn::Secret(secret(body)?)),
    }
}

/// The value of a JSON document (RFC 8259). `NotJson` where the bytes are not UTF-8, or no JSON text of at most 127
/// levels. Its texts are lent from the bytes, or from the scratch where they have escapes.
pub fn read_document<'a>(
    alloc: Global,
    bytes: &'a [u8],
    scratch: &'a mut Scratch,
) -> Result<Value<'a>, ShapeRefusal>
    ensures { ReadsBy view result (found (document bytes.now) fault.NotJson) }
{
    match Value::from_slice(alloc, bytes, scratch) {
        Ok(value) => Ok(value),
        Err(ReadFault::NotJson) => Err(ShapeRefusal::Shape(ShapeFault::NotJson)),
        Err(ReadFault::Memory) => Err(ShapeRefusal::Memory),
    }
}

/// What the bytes of a body ask for, which is to be of the form, or the first fault in the order of the form's fields.
#[tactic(auto, unfolding(crate::specs::Bodies::body_of))]
pub fn read_body(alloc: Global, form: Form, bytes: &[u8]) -> Result<BodyIn, ShapeRefusal>
    ensures { Reads result (body_of form bytes.now) }
{
    let mut scratch = Scratch::new(alloc);
    let value = read_document(alloc, bytes, &mut scratch)?;
    let path = Text::of(alloc, "")?;
    let body = Node::known_as(alloc, path, &value);
    read_form(form, &body)
}

/// What the bytes of a body say of a row of the catalog, or the first fault in the order of the kind's fields. In a creation, which
/// is `new`, what the row can't do without is needed; in a change nothing is.
#[tactic(auto, unfolding(crate::specs::Bodies::catalog_body_of))]
pub fn read_catalog_body(
    alloc: Global,
    kind: CatalogKind,
    new: bool,
    bytes: &[u8],
) -> Result<Boxed<CatalogIn>, ShapeRefusal>
    ensures { Reads result (catalog_body_of kind new bytes.now) }
{
    let mut scratch = Scratch::new(alloc);
    let value = read_document(alloc, bytes, &mut scratch)?;
    let path = Text::of(alloc, "")?;
    let body = Node::known_as(alloc, path, &value);
    Ok(Boxed::new(alloc, catalog_row(kind, new, &body)?)?)
}
