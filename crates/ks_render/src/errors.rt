//! What is told of refusals.
ghost use Rattle.std.specs.Prelude.{◌≡◌, [], ◌∷◌, ◌++◌, codes, OnOk, string_bytes};
ghost use Rattle.ks_render.specs.Errors.{bad_body, error_body, message_of_bad, message_of_cause, message_of_shape, not_authenticated, refused, refused_body, status_of_bad, status_of_cause};
ghost use Rattle.ks_machine.specs.Actions.{kind_word};
ghost use Rattle.ks_render.specs.steps.Writing.{Enters, Tells};

use crate::names::{keys_name, kind_name, tree_name, trust_name};
use crate::status::{status_of_bad, status_of_cause};
use crate::writing::{push, push_id, write_count, write_str};
use json::Writer;
use ks_base::{Id, Kind, ShapeFault};
use ks_http::{HttpCause, reason};
use ks_machine::Cause;
use std::alloc::AllocError;

/// Appends a text between two others.
fn push_between(
    text: &mut String,
    before: &str,
    between: &str,
    behind: &str,
) -> Result<(), AllocError>
    ensures { OnOk result (string_bytes text.new ≡ string_bytes text.old ++ (before.now ++ (between.now ++ behind.now))) }
{
    push(text, before)?;
    push(text, between)?;
    push(text, behind)
}

/// Appends a text and one behind it.
fn push_both(text: &mut String, first: &str, second: &str) -> Result<(), AllocError>
    ensures { OnOk result (string_bytes text.new ≡ string_bytes text.old ++ (first.now ++ second.now)) }
{
    push(text, first)?;
    push(text, second)
}

fn push_refused(text: &mut String, name: &str) -> Result<(), AllocError>
    ensures { OnOk result (string_bytes text.new ≡ string_bytes text.old ++ refused name.now) }
{
    push_between(text, "Refused: ", name, ".")
}

fn push_absent(text: &mut String, kind: Kind, id: &Id) -> Result<(), AllocError>
    ensures { OnOk result (string_bytes text.new ≡ string_bytes text.old ++ (codes "Could not find " ++ (kind_word kind ++ (codes ": " ++ (id.now ++ codes "."))))) }
{
    push_between(text, "Could not find ", kind_name(kind), ": ")?;
    push_id(text, id)?;
    push(text, ".")
}

fn push_taken(text: &mut String, id: &Id) -> Result<(), AllocError>
    ensures { OnOk result (string_bytes text.new ≡ string_bytes text.old ++ (codes "The name is taken by " ++ (id.now ++ codes "."))) }
{
    push(text, "The name is taken by ")?;
    push_id(text, id)?;
    push(text, ".")
}

fn push_full(text: &mut String, kind: Kind) -> Result<(), AllocError>
    ensures { OnOk result (string_bytes text.new ≡ string_bytes text.old ++ (codes "The " ++ (kind_word kind ++ codes " table is full."))) }
{
    push_between(text, "The ", kind_name(kind), " table is full.")
}

#[tactic(auto, unfolding(crate::specs::Errors::message_of_shape))]
fn push_shape(text: &mut String, fault: &ShapeFault) -> Result<(), AllocError>
    ensures { OnOk result (string_bytes text.new ≡ string_bytes text.old ++ message_of_shape fault.now) }
{
    match fault {
        ShapeFault::NotJson => push(text, "The body is not JSON."),
        ShapeFault::Missing(path) => push_both(text, path.as_str(), " is missing."),
        ShapeFault::Kind(path) => push_both(text, path.as_str(), " has the wrong type."),
        ShapeFault::Range(path) => push_both(text, path.as_str(), " is out of range."),
    }
}

fn push_not_authenticated(text: &mut String) -> Result<(), AllocError>
    ensures { OnOk result (string_bytes text.new ≡ string_bytes text.old ++ not_authenticated) }
{
    push(text, "The request you have made requires authentication.")
}

fn push_rule(text: &mut String, action: &str) -> Result<(), AllocError>
    ensures { OnOk result (string_bytes text.new ≡ string_bytes text.old ++ (codes "You are not authorized to perform the requested action: " ++ (action.now ++ codes "."))) }
{
    push_between(
        text,
        "You are not authorized to perform the requested action: ",
        action,
        ".",
    )
}

/// Appends the message of a refusal.
#[tactic(auto, unfolding(crate::specs::Errors::message_of_cause))]
fn push_message(text: &mut String, cause: &Cause) -> Result<(), AllocError>
    ensures { OnOk result (string_bytes text.new ≡ string_bytes text.old ++ message_of_cause cause.now) }
{
    match cause {
        Cause::Shape(fault) => push_shape(text, fault),
        Cause::NoToken => push_not_authenticated(text),
        Cause::CallerToken(_) => push_not_authenticated(text),
        Cause::Credentials => push_not_authenticated(text),
        Cause::ScopeRefused(_) => push_not_authenticated(text),
        Cause::Rule(action) => push_rule(text, action.as_str()),
        Cause::Trust(fault) => push_refused(text, trust_name(fault)),
        Cause::Tree(fault) => push_refused(text, tree_name(fault)),
        Cause::Prohibited => push(text, "Refused: Prohibited."),
        Cause::Immutable(field) => push_both(text, field.as_str(), " cannot be changed."),
        Cause::TrustToken => push(text, "Refused: TrustToken."),
        Cause::KeyMode => push(text, "Refused: KeyMode."),
        Cause::Absent(kind, id) => push_absent(text, *kind, id),
        Cause::SubjectToken(_) => push(text, "Could not find token."),
        Cause::NoRoute => push(text, "The resource could not be found."),
        Cause::NoMethod(_) => push(text, "The method is not allowed."),
        Cause::NameTaken(id) => push_taken(text, id),
        Cause::Keys(fault) => push_between(
            text,
            "The key folder is refused: ",
            keys_name(fault),
            ".",
        ),
        Cause::Full(kind) => push_full(text, *kind),
        Cause::IdTaken(_) => push(text, "The drawn id is taken."),
        Cause::Random => push(text, "No random bytes."),
        Cause::KeyDir => push(text, "The key folder failed."),
        Cause::Memory => push(text, "Out of memory."),
    }
}

/// The message of the response to bytes that are no request.
#[tactic(auto, unfolding(crate::specs::Errors::message_of_bad))]
fn message_of_bad(cause: &HttpCause) -> &'static str
    ensures { result.now ≡ message_of_bad cause.now }
{
    match cause {
        HttpCause::Malformed => "The request is malformed.",
        HttpCause::Chunked => "Chunked bodies are not taken.",
        HttpCause::TooLarge => "The body is too large.",
        HttpCause::HeadTooLarge => "The head is too large.",
        HttpCause::Version => "The version is not supported.",
    }
}

fn write_error(out: &mut Writer, status: u16, message: &str) -> Result<(), AllocError>
    ensures { OnOk result (Tells out.old out.new (error_body status message.now)) }
{
    out.begin_object()?;
    out.key("error")?;
    out.begin_object()?;
    write_count(out, "code", u64::from(status))?;
    write_str(out, "message", message)?;
    write_str(out, "title", reason(status))?;
    out.end_object()?;
    out.end_object()
}

/// Writes what is told of a refusal. `message` is room for its message.
pub fn write_refused(
    out: &mut Writer,
    cause: &Cause,
    message: &mut String,
) -> Result<(), AllocError>
    ensures { OnOk result (Tells out.old out.new (refused_body cause.now)) }
{
    message.clear();
    push_message(message, cause)?;
    write_error(out, status_of_cause(cause), message.as_str())
}

/// Writes what is told of bytes that are no request.
pub fn write_bad(out: &mut Writer, cause: &HttpCause) -> Result<(), AllocError>
    ensures { OnOk result (Tells out.old out.new (bad_body cause.now)) }
{
    write_error(out, status_of_bad(cause), message_of_bad(cause))
}
