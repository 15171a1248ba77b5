ghost use Rattle.std.specs.Prelude.{◌≡◌, ℕ};
ghost use Rattle.std.specs.Str.{str_eq_ignore_ascii_case};
ghost use Rattle.std.specs.Char.{is_ascii_digit};
ghost use Rattle.std.specs.List.{list_all};
ghost use Rattle.httparse.specs.Grammar.{is_ows, skip_ows};
ghost use Rattle.ks_http.specs.Fields.{is_number, is_word_and_space, is_option, lists_option, number_of};
ghost use Rattle.ks_http.specs.Heads.{allowed};
ghost use Rattle.ks_http.specs.steps.Says.{Says, capped};

use crate::cause::HttpCause;
use crate::ending::Ending;
use crate::lines::cut;
use httparse::is_space_or_tab;
use ks_base::limits::BODY_BYTES;

/// The two are the same text but for the case of letters.
pub fn is_named(name: &[u8], text: &[u8]) -> bool
    ensures { result ≡ str_eq_ignore_ascii_case name.now text.now }
{
    name.eq_ignore_ascii_case(text)
}

/// The number that the digits write, or one more than a body may have where it is greater.
pub fn capped_number(digits: &[u8]) -> usize
    ensures { result ≡ capped (number_of digits.now) }
{
    let mut number = 0;
    for digit in digits {
        number = (number * 10 + usize::from(digit.saturating_sub(b'0'))).min(BODY_BYTES + 1);
    }
    number
}

fn are_digits(value: &[u8]) -> bool
    ensures { result ≡ list_all is_ascii_digit value.now }
{
    value.iter().all(|b| b.is_ascii_digit())
}

/// One or more decimal digits.
#[tactic(auto, unfolding(crate::specs::Fields::is_number))]
pub fn is_number(value: &[u8]) -> bool
    ensures { result ≡ is_number value.now }
{
    match value {
        [] => false,
        _ => are_digits(value),
    }
}

fn trim_start(text: &[u8]) -> &[u8]
    ensures { result.now ≡ skip_ows text.now }
{
    let mut rest = text;
    'spaces: while let Some((first, others)) = rest.split_first() {
        if !is_space_or_tab(*first) {
            return rest;
        }
        rest = others;
    }
    rest
}

fn are_space(text: &[u8]) -> bool
    ensures { result ≡ list_all is_ows text.now }
{
    text.iter().all(|b| is_space_or_tab(*b))
}

#[tactic(auto, unfolding(crate::specs::Fields::is_word_and_space))]
fn is_word_and_space(word: &[u8], text: &[u8]) -> bool
    ensures { result ≡ is_word_and_space word.now text.now }
{
    if text.len() < word.len() {
        return false;
    }
    let (front, behind) = text.split_at(word.len());
    if !is_named(front, word) {
        return false;
    }
    are_space(behind)
}

#[tactic(auto, unfolding(crate::specs::Fields::is_option))]
fn is_option(word: &[u8], text: &[u8]) -> bool
    ensures { result ≡ is_option word.now text.now }
{
    is_word_and_space(word, trim_start(text))
}

/// The word is an option of a list with commas.
pub fn lists_option(word: &[u8], value: &[u8]) -> bool
    ensures { result ≡ lists_option word.now value.now }
{
    let mut rest = value;
    'parts: while let Some((part, behind)) = cut(rest, b',') {
        if is_option(word, part) {
            return true;
        }
        rest = behind;
    }
    is_option(word, rest)
}

/// The length of a body, which may not come in chunks and not be too large.
#[tactic(auto, unfolding(crate::specs::Heads::allowed))]
pub fn allowed(chunked: bool, length: usize) -> Result<usize, Ending>
    ensures { (number : ℕ) → length ≡ capped number → Says (allowed chunked number) result }
{
    if chunked {
        return Err(Ending::Bad(HttpCause::Chunked));
    }
    if length > BODY_BYTES {
        return Err(Ending::Bad(HttpCause::TooLarge));
    }
    Ok(length)
}
