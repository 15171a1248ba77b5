//! The names of causes.

use ks_base::{Memory, ShapeFault, Text};
use ks_machine::{Cause, ScopeWhy, Why};
use ks_render::{keys_name, kind_name, tree_name, trust_name};
use std::alloc::Global;

/// The name of a cause, with that of what it holds in parentheses. Of what a client sent it holds nothing.
pub fn cause_text(alloc: Global, cause: &Cause) -> Result<Text, Memory> {
    match cause {
        Cause::Shape(fault) => within(alloc, "Shape", shape_name(fault)),
        Cause::NoToken => Text::of(alloc, "NoToken"),
        Cause::CallerToken(why) => within(alloc, "CallerToken", why_name(*why)),
        Cause::Credentials => Text::of(alloc, "Credentials"),
        Cause::ScopeRefused(why) => within(alloc, "ScopeRefused", scope_name(*why)),
        Cause::Rule(action) => within(alloc, "Rule", action.as_str()),
        Cause::Trust(fault) => within(alloc, "Trust", trust_name(fault)),
        Cause::Tree(fault) => within(alloc, "Tree", tree_name(fault)),
        Cause::Prohibited => Text::of(alloc, "Prohibited"),
        Cause::Immutable(field) => within(alloc, "Immutable", field.as_str()),
        Cause::TrustToken => Text::of(alloc, "TrustToken"),
        Cause::KeyMode => Text::of(alloc, "KeyMode"),
        Cause::Absent(kind, _) => within(alloc, "Absent", kind_name(*kind)),
        Cause::SubjectToken(why) => within(alloc, "SubjectToken", why_name(*why)),
        Cause::NoRoute => Text::of(alloc, "NoRoute"),
        Cause::NoMethod(_) => Text::of(alloc, "NoMethod"),
        Cause::NameTaken(_) => Text::of(alloc, "NameTaken"),
        Cause::Keys(fault) => within(alloc, "Keys", keys_name(fault)),
        Cause::Full(kind) => within(alloc, "Full", kind_name(*kind)),
        Cause::IdTaken(_) => Text::of(alloc, "IdTaken"),
        Cause::Random => Text::of(alloc, "Random"),
        Cause::KeyDir => Text::of(alloc, "KeyDir"),
        Cause::Memory => Text::of(alloc, "Memory"),
    }
}

fn within(alloc: Global, name: &str, of: &str) -> Result<Text, Memory> {
    let text = format!(in alloc; "{name}({of})")?;
    Text::of(alloc, text.as_str())
}

fn shape_name(fault: &ShapeFault) -> &'static str {
    match fault {
        ShapeFault::NotJson => "NotJson",
        ShapeFault::Missing(_) => "Missing",
        ShapeFault::Kind(_) => "Kind",
        ShapeFault::Range(_) => "Range",
    }
}

fn why_name(why: Why) -> &'static str {
    match why {
        Why::Text => "Text",
        Why::Key => "Key",
        Why::Payload => "Payload",
        Why::Future => "Future",
        Why::Expired => "Expired",
        Why::Span => "Span",
        Why::Revoked => "Revoked",
        Why::User => "User",
        Why::Scope => "Scope",
        Why::Trust => "Trust",
        Why::Credential => "Credential",
        Why::Roles => "Roles",
    }
}

fn scope_name(why: ScopeWhy) -> &'static str {
    match why {
        ScopeWhy::Absent => "Absent",
        ScopeWhy::Off => "Off",
        ScopeWhy::NoRoles => "NoRoles",
    }
}
