//! What holds of the definitions that the contracts cite. Each law is the contract of a function that
//! does nothing.
ghost use Rattle.std.specs.Prelude.{◌≡◌, ℕ, List};
ghost use Rattle.ks_rule.specs.declared.credentials.Credentials.{Credentials};
ghost use Rattle.ks_rule.specs.Kinds.{Fields};
ghost use Rattle.ks_rule.specs.Truth.{truth};
ghost use Rattle.ks_machine.specs.Openings.{NamedRule};
ghost use Rattle.ks_machine.specs.Rules.{tree_named};
ghost use Rattle.ks_policy.specs.Cycles.{HasNoCycle};
ghost use Rattle.ks_machine.specs.Allowed.{allowed};

/// Where no rule reaches itself, a name is allowed what its tree is, with the names in it allowed by the
/// same measure.
pub fn rounds_suffice()
    ensures { (rules : List NamedRule) (name : List ℕ) (creds : Credentials) (target : Fields) → HasNoCycle rules →
        allowed rules name creds target ≡ truth (λ other. allowed rules other creds target) (tree_named rules name) creds target }
{}
