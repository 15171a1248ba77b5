//! What holds of the definitions that the contracts cite. Each law is the contract of a function
//! that does nothing.

ghost use Rattle.std.specs.Prelude.{◌≡◌, ◌↔◌, ◌⊎◌, ℕ, List, ◌∷◌, [], ◌++◌, length, Some, None};
ghost use Rattle.ks_base.specs.declared.key.Key.{Key};
ghost use Rattle.ks_fernet.specs.declared.envelope.Envelope.{Envelope};
ghost use Rattle.ks_aes_cbc.specs.Aes.{AreBytes};
ghost use Rattle.ks_fernet.specs.Base64Url.{Spells, bare_text, bytes_of, padded_text};
ghost use Rattle.ks_fernet.specs.KeyText.{IsKeyText, key_of};
ghost use Rattle.ks_fernet.specs.declared.opening.OpenAnswer.TheVariants.{NotText, No, Yes};
ghost use Rattle.ks_fernet.specs.Opening.{Holds, HoldsNothing, open_of};
ghost use Rattle.ks_fernet.specs.Token.{IsToken, envelope_of};

/// A text spells one list of bytes at most.
pub fn text_has_one_reading()
    ensures { (text a b : List ℕ) → Spells text a → Spells text b → AreBytes a → AreBytes b → a ≡ b }
{}

/// The bytes that are read are those that the text spells.
pub fn bytes_are_spelled()
    ensures some { (text bytes : List ℕ) → (bytes_of text ≡ Some bytes) ↔ (Spells text bytes × AreBytes bytes) }
    ensures none { (text : List ℕ) → (bytes_of text ≡ None) ↔ ((bytes : List ℕ) → AreBytes bytes → ¬ Spells text bytes) }
{}

/// Bytes are read alike with their padding and without it.
pub fn padding_is_free()
    ensures padded { (bytes : List ℕ) → AreBytes bytes → bytes_of (padded_text bytes) ≡ Some bytes }
    ensures bare { (bytes : List ℕ) → AreBytes bytes → bytes_of (bare_text bytes) ≡ Some bytes }
{}

/// `envelope_of` finds the parts of which the text is a token.
pub fn envelope_is_token()
    ensures some { (text : List ℕ) (e : Envelope) → (envelope_of text ≡ Some e) ↔ IsToken text e }
    ensures none { (text : List ℕ) → (envelope_of text ≡ None) ↔ ((e : Envelope) → ¬ IsToken text e) }
{}

/// `key_of` finds the key that the text spells.
pub fn key_is_spelled()
    ensures some { (text : List ℕ) (key : Key) → (key_of text ≡ Some key) ↔ IsKeyText text key }
    ensures none { (text : List ℕ) → (key_of text ≡ None) ↔ ((key : Key) → ¬ IsKeyText text key) }
{}

/// A key's text has 43 characters, or these and one `=`.
pub fn key_has_two_texts()
    ensures { (text : List ℕ) (key : Key) → IsKeyText text key →
        let bare = bare_text (key.signing ++ key.encryption) in
        (length bare ≡ 43) × ((text ≡ bare) ⊎ (text ≡ bare ++ 61 ∷ [])) }
{}

/// `open_of` says what the text holds under the key.
pub fn opening_says_what_is_held()
    ensures yes { (key : Key) (text : List ℕ) (time : ℕ) (plain : List ℕ) → (open_of key text ≡ Yes time plain) ↔ Holds key text time plain }
    ensures nothing { (key : Key) (text : List ℕ) → (open_of key text ≡ No) ↔ HoldsNothing key text }
    ensures not_text { (key : Key) (text : List ℕ) → (open_of key text ≡ NotText) ↔ ((e : Envelope) → ¬ IsToken text e) }
{}
