//! What holds of the definitions that the contracts cite. Each law is the contract of a function that
//! does nothing.
ghost use Rattle.std.specs.Prelude.{◌≡◌, ◌↔◌, ℕ, true, List, [], ◌∷◌, ◌++◌, Some};
ghost use Rattle.ks_rule.specs.Trees.{Tree};
ghost use Rattle.ks_rule.specs.Grammar.{IsRule};
ghost use Rattle.ks_rule.specs.Tokens.{opening, closing, is_space, tokens};
ghost use Rattle.ks_rule.specs.Filling.{Piece, pieces, IsSpelled};

/// A text has one tree at most.
pub fn texts_have_one_tree()
    ensures { (text : List ℕ) (a b : Tree) → IsRule text a → IsRule text b → a ≡ b }
{}

/// White space parts tokens, and a parenthesis before a text or behind it is a token of its own.
pub fn tokens_stand_in_a_row()
    ensures parted { (front behind : List ℕ) (space : ℕ) → is_space space ≡ true → tokens (front ++ space ∷ behind) ≡ tokens front ++ tokens behind }
    ensures opened { (text : List ℕ) → tokens (40 ∷ text) ≡ opening ∷ tokens text }
    ensures closed { (text : List ℕ) → tokens (text ++ 41 ∷ []) ≡ tokens text ++ closing ∷ [] }
{}

/// The pieces of a text that can be filled are those that it is written of.
pub fn pieces_are_written_in_a_row()
    ensures { (text : List ℕ) (found : List Piece) → (pieces text ≡ Some found) ↔ IsSpelled text found }
{}
