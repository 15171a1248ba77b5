//! What holds of the definitions that the contracts cite. Each law is the contract of a function that does nothing but
//! name the laws that it follows from.
ghost use Rattle.std.specs.Prelude.{◌≡◌, ℕ};
ghost use Rattle.ks_base.specs.Rows.{Text};
ghost use Rattle.ks_drill.specs.Drill.{IsDrill};

use ks_rule::laws::texts_have_one_tree;

/// A drill has one line at most: the texts of the default policy have one tree each.
pub fn drill_says_one_line()
    ensures { (start count : ℕ) (a b : Text) → IsDrill start count a → IsDrill start count b → a ≡ b }
{
    texts_have_one_tree();
}
