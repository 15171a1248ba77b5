ghost use Rattle.std.specs.Prelude.{◌≡◌, ◌↔◌, ℕ, List, IfOk, IsTrue, IsUtf8};
ghost use Rattle.ks_rule.specs.Grammar.{IsRule, IsWithinLimits};
ghost use Rattle.ks_rule.specs.Trees.{tree_of};
ghost use Rattle.ks_rule.specs.Writing.{text_of};

use crate::reader::read_rule;
use crate::stop::Stop;
use crate::writer::write;
use ks_base::limits::RULE_BYTES;
use ks_base::{Memory, Text};
use std::alloc::Global;

/// A rule as a tree. Contracts see it as its `tree_of`.
pub enum Rule {
    Always,
    Never,
    /// The rule of this name.
    Named(Text),
    /// The caller has a role whose name is this text, filled from the target.
    Role(Text),
    /// The literal or credential of this kind is this text, filled from the target.
    Compare(Text, Text),
    Not(Box<Rule>),
    And(Box<Rule>, Box<Rule>),
    Or(Box<Rule>, Box<Rule>),
}

impl Drop for Rule {
    fn drop(self) {
        match self {
            Rule::Always
            | Rule::Never
            | Rule::Named(_)
            | Rule::Role(_)
            | Rule::Compare(_, _)
            | Rule::Not(_)
            | Rule::And(_, _)
            | Rule::Or(_, _) => {}
        }
    }
}

fn is_utf8(text: &[u8]) -> bool
    ensures { IsTrue result ↔ IsUtf8 text.now }
{
    std::str::from_utf8(text).is_ok()
}

impl Rule {
    /// The tree of a text in the language of oslo.policy, which is `Never` for one that does not parse. It
    /// refuses for want of memory alone.
    pub fn read(alloc: Global, text: &[u8]) -> Result<Rule, Memory>
        ensures { IfOk result (λ rule. IsRule text.now (tree_of rule)) }
    {
        if text.is_empty() {
            return Ok(Rule::Always);
        }
        if text.len() > RULE_BYTES || !is_utf8(text) {
            return Ok(Rule::Never);
        }
        match read_rule(alloc, text) {
            Ok(rule) => Ok(rule),
            Err(Stop::Unreadable) => Ok(Rule::Never),
            Err(Stop::OutOfMemory) => Err(Memory),
        }
    }

    /// The text of the rule, with parentheses only where it needs them. It refuses for want of memory alone.
    pub fn write(&self, alloc: Global) -> Result<Text, Memory>
        ensures text { IfOk result (λ text. text ≡ text_of (tree_of self.now)) }
        // Where some text has this tree, the written one has it too, if it is not too long.
        ensures read { IfOk result (λ text. (given : List ℕ) → IsRule given (tree_of self.now) → IsWithinLimits text → IsRule text (tree_of self.now)) }
    {
        write(alloc, self)
    }
}
