ghost use Rattle.std.specs.Prelude.{◌≡◌, ◌∷◌, ◌++◌, ◌==◌, MatchOption, None};
ghost use Rattle.std.specs.List.{position};
ghost use Rattle.ks_commands.specs.Lines.{IsInLine, with_digit, with_digits, number_of, token_line_of, IsTokenLine};

use memchr::memchr;

/// A line of `check` behind the first: a reading of the clock, and a token's text.
#[derive(Clone, Copy)]
pub struct TokenLine<'a> {
    /// Whole seconds since 1970-01-01T00:00:00Z.
    pub reading: u64,
    pub token: &'a [u8],
}

/// The first place of a byte in a text.
fn place_of(byte: u8, text: &[u8]) -> Option<usize>
    ensures { result ≡ position (λ b. b == byte) text.now }
{
    memchr(byte, text)
}

/// The first line of a text and what stands behind its line feed. `None` where no line feed comes.
pub fn first_line(text: &[u8]) -> Option<(&[u8], &[u8])>
    ensures { MatchOption result (IsInLine text.now) (λ cut. IsInLine cut.0.now × (text.now ≡ cut.0.now ++ 10 ∷ cut.1.now)) }
{
    let Some(end) = place_of(b'\n', text) else {
        return None;
    };
    let (line, rest) = text.split_at(end);
    Some((line, rest.split_at(1).1))
}

fn digit_behind(number: u64, digit: u8) -> Option<u64>
    ensures { result ≡ with_digit number digit }
{
    if !digit.is_ascii_digit() {
        return None;
    }
    match number.checked_mul(10) {
        Some(tens) => tens.checked_add(u64::from(digit - b'0')),
        None => None,
    }
}

#[tactic(auto, unfolding(crate::specs::Lines::with_digits))]
fn digits(text: &[u8]) -> Option<u64>
    ensures { result ≡ with_digits 0 text.now }
{
    let mut number = 0;
    for digit in text {
        let Some(longer) = digit_behind(number, *digit) else {
            return None;
        };
        number = longer;
    }
    Some(number)
}

#[tactic(auto, unfolding(crate::specs::Lines::with_digits))]
fn number(text: &[u8]) -> Option<u64>
    ensures { result ≡ number_of text.now }
{
    match text {
        [] | [b'0', _, ..] => None,
        _ => digits(text),
    }
}

/// The parts of a line; `None` where it is not a decimal, one space and a text.
pub fn token_line(line: &[u8]) -> Option<TokenLine<'_>>
    ensures { MatchOption result (token_line_of line.now ≡ None) (λ parts. IsTokenLine line.now parts.reading parts.token.now) }
{
    let Some(place) = place_of(b' ', line) else {
        return None;
    };
    let (before, behind) = line.split_at(place);
    let Some(reading) = number(before) else {
        return None;
    };
    Some(TokenLine {
        reading,
        token: behind.split_at(1).1,
    })
}
