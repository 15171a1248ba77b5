ghost use Rattle.std.specs.Prelude.{◌≡◌, [], ◌++◌, if◌then◌else◌, codes, IfOk, OnOk, IsUtf8, string_bytes};
ghost use Rattle.ks_rule.specs.Trees.{tree_of};
ghost use Rattle.ks_rule.specs.Writing.{groups_and, groups_or, text_of, written};

use crate::rule::Rule;
use ks_base::{Memory, Text};
use std::alloc::Global;

/// Which rules may stand at a place without parentheses: any, those without an `or`, or those without
/// `and` too.
#[derive(Clone, Copy)]
pub enum Level {
    Or,
    And,
    Not,
}

impl Level {
    /// Whether an and-rule needs parentheses here.
    fn groups_and(self) -> bool
        ensures { result ≡ groups_and self }
    {
        match self {
            Level::Or | Level::And => false,
            Level::Not => true,
        }
    }

    /// Whether an or-rule needs parentheses here.
    fn groups_or(self) -> bool
        ensures { result ≡ groups_or self }
    {
        match self {
            Level::Or => false,
            Level::And | Level::Not => true,
        }
    }
}

/// The text of a rule.
pub fn write(alloc: Global, rule: &Rule) -> Result<Text, Memory>
    ensures text { IfOk result (λ text. text ≡ text_of (tree_of rule.now)) }
    ensures utf8 { IfOk result (λ text. IsUtf8 text) }
{
    let mut out = String::new(alloc);
    put(&mut out, rule, Level::Or)?;
    match Text::read(alloc, out.as_str().as_bytes())? {
        Some(text) => Ok(text),
        None => unreachable!(),
    }
}

#[tactic(auto, unfolding(crate::specs::Writing::written))]
fn put(out: &mut String, rule: &Rule, at: Level) -> Result<(), Memory>
    ensures { OnOk result (string_bytes out.new ≡ string_bytes out.old ++ written at (tree_of rule.now)) }
{
    match rule {
        Rule::Always => put_text(out, "@"),
        Rule::Never => put_text(out, "!"),
        Rule::Named(name) => put_check(out, "rule", name.as_str()),
        Rule::Role(text) => put_check(out, "role", text.as_str()),
        Rule::Compare(kind, text) => put_check(out, kind.as_str(), text.as_str()),
        Rule::Not(a) => {
            put_text(out, "not ")?;
            put(out, a, Level::Not)
        }
        Rule::And(a, b) => {
            let grouped = at.groups_and();
            put_if(out, grouped, "(")?;
            put(out, a, Level::And)?;
            put_text(out, " and ")?;
            put(out, b, Level::Not)?;
            put_if(out, grouped, ")")
        }
        Rule::Or(a, b) => {
            let grouped = at.groups_or();
            put_if(out, grouped, "(")?;
            put(out, a, Level::Or)?;
            put_text(out, " or ")?;
            put(out, b, Level::And)?;
            put_if(out, grouped, ")")
        }
    }
}

fn put_text(out: &mut String, text: &str) -> Result<(), Memory>
    ensures { OnOk result (string_bytes out.new ≡ string_bytes out.old ++ text.now) }
{
    out.push_str(text)?;
    Ok(())
}

fn put_if(out: &mut String, wanted: bool, text: &str) -> Result<(), Memory>
    ensures { OnOk result (string_bytes out.new ≡ string_bytes out.old ++ (if wanted then text.now else [])) }
{
    if !wanted {
        return Ok(());
    }
    put_text(out, text)
}

fn put_check(out: &mut String, kind: &str, text: &str) -> Result<(), Memory>
    ensures { OnOk result (string_bytes out.new ≡ string_bytes out.old ++ (kind.now ++ (codes ":" ++ text.now))) }
{
    put_text(out, kind)?;
    put_text(out, ":")?;
    put_text(out, text)
}
