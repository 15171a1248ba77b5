ghost use Rattle.std.specs.Prelude.{◌≡◌};
ghost use Rattle.std.specs.Char.{is_ascii_digit};
ghost use Rattle.std.specs.List.{list_all};
ghost use Rattle.ks_time.specs.TimeTexts.{is_fraction};

fn are_digits(text: &[u8]) -> bool
    ensures { result ≡ list_all is_ascii_digit text.now }
{
    text.iter().all(u8::is_ascii_digit)
}

/// Whether this is nothing, or a point and one to six digits.
pub fn is_fraction(text: &[u8]) -> bool
    ensures { result ≡ is_fraction text.now }
{
    match text.split_first() {
        None => true,
        Some((b'.', digits)) => (1..=6).contains(&digits.len()) && are_digits(digits),
        Some(_) => false,
    }
}
