ghost use Rattle.std.specs.Prelude.{◌≡◌};
ghost use Rattle.std.specs.Option.{option_copied};
ghost use Rattle.std.specs.List.{list_all};
ghost use Rattle.std.specs.Char.{is_ascii_digit};
ghost use Rattle.ks_rule.specs.Kinds.{quoted, is_decimal, is_word, value_in, value_of};

use ks_base::FieldList;

/// What stands between the quotes of a text in quotes, single or double.
pub fn quoted(text: &[u8]) -> Option<&[u8]>
    ensures { option_copied result ≡ quoted text.now }
{
    match text {
        [first @ (b'"' | b'\''), inside @ .., last] if first == last => Some(inside),
        _ => None,
    }
}

/// Whether a kind is a literal of its own text.
fn is_word(kind: &[u8]) -> bool
    ensures { result ≡ is_word kind.now }
{
    kind == b"True".as_slice()
        || kind == b"False".as_slice()
        || kind == b"None".as_slice()
        || is_decimal(kind)
}

fn is_decimal(text: &[u8]) -> bool
    ensures { result ≡ is_decimal text.now }
{
    !text.is_empty() && are_digits(text)
}

fn are_digits(text: &[u8]) -> bool
    ensures { result ≡ list_all is_ascii_digit text.now }
{
    text.iter().all(|byte| byte.is_ascii_digit())
}

/// The first value of this name.
#[tactic(auto, unfolding(crate::specs::Kinds::value_in))]
pub fn value_in<'a>(fields: &'a FieldList, name: &[u8]) -> Option<&'a [u8]>
    ensures { option_copied result ≡ value_in fields.now name.now }
{
    for (known, value) in fields.as_slice() {
        if known.as_slice() == name {
            return Some(value.as_slice());
        }
    }
    None
}

/// What a kind stands for, where it is a literal or there is such a credential.
#[tactic(auto, unfolding(crate::specs::Kinds::value_of))]
pub fn value_of<'a>(kind: &'a [u8], named: &'a FieldList) -> Option<&'a [u8]>
    ensures { option_copied result ≡ value_of kind.now named.now }
{
    if let Some(inside) = quoted(kind) {
        return Some(inside);
    }
    if is_word(kind) {
        return Some(kind);
    }
    value_in(named, kind)
}
