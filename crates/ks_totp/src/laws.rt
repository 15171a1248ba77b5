//! What the definitions of this crate mean, as laws.
ghost use Rattle.std.specs.Prelude.{◌≡◌, ◌<◌, ℕ, true, List, slice_index};
ghost use Rattle.std.specs.Int.{bit_at};
ghost use Rattle.ks_totp.specs.Base32.{base32_of};
ghost use Rattle.ks_totp.specs.Factors.{is_within};

/// No two lists of bytes have one text in base32, so what is read back is what was written.
#[tactic(auto, using(crate::proofs::Base32Lemmas::one_text))]
pub fn one_text_is_of_one_secret()
    ensures { (a b : List ℕ) → ((k : ℕ) → slice_index a k < 256) → ((k : ℕ) → slice_index b k < 256) → base32_of a ≡ base32_of b → a ≡ b }
{}

/// A rule is met by the methods that have each method of the rule.
#[tactic(auto, using(crate::proofs::RuleLemmas::bits_within, crate::proofs::RuleLemmas::within_by_bits))]
pub fn rules_are_sets_of_methods()
    ensures all { (methods rule : ℕ) → is_within methods rule ≡ true → (k : ℕ) → bit_at rule k ≡ 1 → bit_at methods k ≡ 1 }
    ensures enough { (methods rule : ℕ) → ((k : ℕ) → bit_at rule k ≡ 1 → bit_at methods k ≡ 1) → is_within methods rule ≡ true }
{}
