ghost use Rattle.std.specs.Prelude.{◌≡◌};
ghost use Rattle.ks_rule.specs.Trees.{tree_of};
ghost use Rattle.std.specs.Str.{bytes_eq};
ghost use Rattle.ks_rule.specs.Kinds.{value_of};
ghost use Rattle.ks_rule.specs.Filling.{filled};
ghost use Rattle.ks_rule.specs.Truth.{agrees, has_role, truth};

use crate::credentials::{Attributes, Credentials};
use crate::filling::{Case, fills};
use crate::kind::value_of;
use crate::rule::Rule;
use ks_base::{Text, TextList};

/// What knows which named rules hold. It looks that up, or works it out before: it does not come back to
/// [`Rule::holds`].
pub trait NamedRules {
    ghost use Rattle.std.specs.Prelude.{ℕ, Bool, List};

    /// Whether the rule of a name holds.
    ghost holding: { Self → List ℕ → Bool };

    /// Whether the rule of this name holds.
    fn holds(&self, name: &Text) -> bool
        ensures { result ≡ holding self.now name.now };
}

impl Rule {
    /// Whether the rule holds for this caller and target, where `named` knows the rules of names. It takes no
    /// memory: a text is compared as it is filled.
    #[tactic(auto, unfolding(crate::specs::Truth::truth))]
    pub fn holds<N: NamedRules>(&self, named: &N, creds: &Credentials, target: &Attributes) -> bool
        ensures { result ≡ truth (N.holding named.now) (tree_of self.now) creds.now target.now }
    {
        match self {
            Rule::Always => true,
            Rule::Never => false,
            Rule::Named(name) => named.holds(name),
            Rule::Role(text) => has_role(&creds.roles, text, target),
            Rule::Compare(kind, text) => agrees(kind, text, creds, target),
            Rule::Not(a) => !a.holds(named, creds, target),
            Rule::And(a, b) => a.holds(named, creds, target) && b.holds(named, creds, target),
            Rule::Or(a, b) => a.holds(named, creds, target) || b.holds(named, creds, target),
        }
    }
}

/// Whether some role has the name that the filled text is.
fn has_role(roles: &TextList, text: &Text, target: &Attributes) -> bool
    ensures { result ≡ has_role roles.now (filled target.now text.now) }
{
    for name in roles.as_slice() {
        if fills(text.as_slice(), target, name.as_slice(), Case::Ignored) {
            return true;
        }
    }
    false
}

/// Whether what the kind stands for is the filled text.
fn agrees(kind: &Text, text: &Text, creds: &Credentials, target: &Attributes) -> bool
    ensures { result ≡ agrees bytes_eq (value_of kind.now creds.now.named) (filled target.now text.now) }
{
    match value_of(kind.as_slice(), &creds.named) {
        Some(value) => fills(text.as_slice(), target, value, Case::Exact),
        None => false,
    }
}
