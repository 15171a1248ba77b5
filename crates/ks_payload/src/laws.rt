//! Laws of the format. Their functions do nothing: their contracts are the laws.
ghost use Rattle.ks_payload.specs.Laws.{FindsEachPayload, FindsNoOther, HasOneReading, HasItsVersions, HasOneSpelling, HasNoProperPrefix, HasTheIdField};

/// What the computed reading finds is what the bytes spell.
pub fn readings()
    ensures some { FindsEachPayload }
    ensures none { FindsNoOther }
{}

/// A payload has a spelling in version 2, and one in version 1 exactly where its kind is 0 to 3.
pub fn versions()
    ensures { HasItsVersions }
{}

/// A payload has one spelling in a version.
pub fn one_spelling()
    ensures { HasOneSpelling }
{}

/// Bytes spell one payload at most.
pub fn one_reading()
    ensures { HasOneReading }
{}

/// No spelling is a proper prefix of another.
pub fn prefix_free()
    ensures { HasNoProperPrefix }
{}

/// The field of an id is the one that the format names.
pub fn id_fields()
    ensures { HasTheIdField }
{}
