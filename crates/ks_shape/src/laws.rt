//! What holds of the definitions that the contracts cite. The functions do nothing: their contracts are the laws.
ghost use Rattle.std.specs.Prelude.{◌≡◌, ◌↔◌, ◌<◌, ℕ, List, Some, slice_index};
ghost use Rattle.ks_shape.specs.Ranges.{BodiesAreInRange, CatalogBodiesAreInRange};
ghost use Rattle.ks_shape.specs.Secrets.{base32_bytes};
ghost use Rattle.ks_shape.specs.Times.{time_of};
ghost use Rattle.ks_time.specs.TimeTexts.{IsTimeText};
ghost use Rattle.ks_totp.specs.Base32.{IsBase32};

/// A text has a moment exactly where it is a time text of that moment.
pub fn moments_are_of_time_texts()
    ensures { (text : List ℕ) (moment : ℕ) → (time_of text ≡ Some moment) ↔ IsTimeText text moment }
{}

/// A text gives bytes exactly where it is the base32 of these bytes.
pub fn secrets_are_of_base32_texts()
    ensures { (text bytes : List ℕ) → (base32_bytes text ≡ Some bytes) ↔ (IsBase32 text bytes × ((k : ℕ) → slice_index bytes k < 256)) }
{}

/// What is read of a body is what its form takes, each field in range; a new row has a name and no id.
pub fn bodies_are_in_range()
    ensures { BodiesAreInRange }
{}

/// What is read of a body of the catalog is of its kind, with each field in range; a new row has what it can't do without.
pub fn catalog_bodies_are_in_range()
    ensures { CatalogBodiesAreInRange }
{}
