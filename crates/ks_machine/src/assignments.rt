//! What a listing of role assignments asks for.
ghost use Rattle.std.specs.Prelude.{◌≡◌};
ghost use Rattle.std.specs.Option.{option_copied};
ghost use Rattle.ks_machine.specs.Assignments.{asks_for_effective, is_yes, user_lacking};

use ks_base::FieldList;
use ks_rule::value_in;

fn is_yes(text: &[u8]) -> bool
    ensures { result ≡ is_yes text.now }
{
    !(text == b"0".as_slice() || text == b"false".as_slice())
}

/// Whether the listing asks for effective roles.
pub fn asks_for_effective(fields: &FieldList) -> bool
    ensures { result ≡ asks_for_effective fields.now }
{
    match value_in(fields, b"effective") {
        Some(text) => is_yes(text),
        None => false,
    }
}

/// The field that a listing lacks: one that asks for effective roles names the user whose they are.
pub fn user_lacking(fields: &FieldList) -> Option<&'static str>
    ensures { option_copied result ≡ user_lacking fields.now }
{
    if asks_for_effective(fields) && value_in(fields, b"user.id").is_none() {
        Some("user.id")
    } else {
        None
    }
}
