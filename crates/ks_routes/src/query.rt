//! Queries of requests, as web forms (URL Standard, section 5).
ghost use Rattle.std.specs.Prelude.{◌≡◌, ◌++◌, ◌∷◌, [], IfOk, OnOk, map};
ghost use Rattle.std.specs.Cow.{cow_str_bytes};
ghost use Rattle.ks_routes.specs.Queries.{allows_expired, field_of, fields_in, filter_in, known_fields, says_yes, text_in};
ghost use Rattle.ks_shape.specs.Places.{names_in};
ghost use Rattle.ks_rule.specs.Kinds.{value_in};
ghost use Rattle.std.specs.Option.{option_copied};

use form_urlencoded::{decode, raw_pairs};
use ks_base::{FieldList, Filter, Memory, Text};
use std::alloc::Global;

/// The text that a part of a query stands for. What is not UTF-8 is replaced.
fn text_in(alloc: Global, part: &[u8]) -> Result<Text, Memory>
    ensures { IfOk result (λ text. text ≡ text_in part.now) }
{
    let text = decode(alloc, part)?;
    Text::of(alloc, &text)
}

/// The names of a query with their values, in their order.
#[tactic(auto, unfolding(crate::specs::Queries::fields_in))]
fn fields_in(alloc: Global, query: &[u8]) -> Result<FieldList, Memory>
    ensures { IfOk result (λ fields. fields ≡ fields_in query.now) }
{
    let mut fields = FieldList::new(alloc);
    for (name, value) in raw_pairs(query) {
        fields.push((text_in(alloc, name)?, text_in(alloc, value)?))?;
    }
    Ok(fields)
}

/// The first value under the name.
#[tactic(auto, unfolding(ks_rule::specs::Kinds::value_in))]
fn value_in<'a>(fields: &'a [(Text, Text)], name: &str) -> Option<&'a Text>
    ensures { option_copied result ≡ value_in fields.now name.now }
{
    for (other, value) in fields {
        if other.as_slice() == name.as_bytes() {
            return Some(value);
        }
    }
    None
}

/// Adds the name with its first value, where it is there.
fn push_known(
    known: &mut FieldList,
    alloc: Global,
    fields: &[(Text, Text)],
    name: &str,
) -> Result<(), Memory>
    ensures { OnOk result (known.new ≡ known.old ++ field_of name.now (value_in fields.now name.now)) }
{
    match value_in(fields, name) {
        Some(value) => known.push((Text::of(alloc, name)?, value.copy()?)),
        None => Ok(()),
    }
}

/// The filter that a query gives of these names: of each the first value, as decoded.
#[tactic(auto, unfolding(crate::specs::Queries::known_fields))]
pub fn filter_in(alloc: Global, names: &[&str], query: &[u8]) -> Result<Filter, Memory>
    ensures { IfOk result (λ filter. filter ≡ filter_in (names_in names.now) query.now) }
{
    let all = fields_in(alloc, query)?;
    let fields = all.as_slice();
    let mut known = FieldList::new(alloc);
    for name in names {
        push_known(&mut known, alloc, fields, name)?;
    }
    Ok(Filter { fields: known })
}

/// Whether a truth value of a query is true.
fn says_yes(value: &Text) -> bool
    ensures { result ≡ says_yes value.now }
{
    !matches!(value.as_slice(), b"0" | b"false" | b"False")
}

/// Whether the request allows a token that has expired.
pub fn allows_expired(alloc: Global, query: &[u8]) -> Result<bool, Memory>
    ensures { IfOk result (λ allows. allows ≡ allows_expired query.now) }
{
    let fields = fields_in(alloc, query)?;
    match value_in(fields.as_slice(), "allow_expired") {
        Some(value) => Ok(says_yes(value)),
        None => Ok(false),
    }
}
