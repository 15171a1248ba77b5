//! The filters of listings: the fields of a query, and what they ask of a row.
ghost use Rattle.std.specs.Prelude.{◌≡◌, option_copied};
ghost use Rattle.ks_machine.specs.Listings.{passes_domain, passes_enabled, has_text, has_truth, says_no};
ghost use Rattle.ks_rule.specs.Kinds.{value_in};

use ks_base::{FieldList, Id, Text};

/// The first value of this name.
#[tactic(auto, unfolding(ks_rule::specs::Kinds::value_in))]
pub fn value_in<'a>(fields: &'a FieldList, name: &str) -> Option<&'a Text>
    ensures { option_copied result ≡ value_in fields.now name.now }
{
    for (known, value) in fields.as_slice() {
        if known.as_slice() == name.as_bytes() {
            return Some(value);
        }
    }
    None
}

/// Whether the filter of this name is not given, or is this text.
pub fn has_text(fields: &FieldList, name: &str, value: &[u8]) -> bool
    ensures { result ≡ has_text fields.now name.now value.now }
{
    match value_in(fields, name) {
        Some(wanted) => value == wanted.as_slice(),
        None => true,
    }
}

/// Whether a text says no.
fn says_no(text: &Text) -> bool
    ensures { result ≡ says_no text.now }
{
    text.as_slice() == b"false".as_slice()
        || text.as_slice() == b"False".as_slice()
        || text.as_slice() == b"0".as_slice()
}

/// Whether the filter of this name is not given, or says the same.
fn has_truth(fields: &FieldList, name: &str, value: bool) -> bool
    ensures { result ≡ has_truth fields.now name.now value }
{
    match value_in(fields, name) {
        Some(text) => {
            let wanted = !says_no(text);
            if value { wanted } else { !wanted }
        }
        None => true,
    }
}

pub fn has_domain(fields: &FieldList, domain: &Id) -> bool
    ensures { result ≡ passes_domain fields.now domain.now }
{
    has_text(fields, "domain_id", domain.as_slice())
}

pub fn has_enabled(fields: &FieldList, enabled: bool) -> bool
    ensures { result ≡ passes_enabled fields.now enabled }
{
    has_truth(fields, "enabled", enabled)
}
