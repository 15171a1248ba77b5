ghost use Rattle.std.specs.Prelude.{◌≡◌, ◌==◌, option_map};
ghost use Rattle.std.specs.List.{list_all, position};
ghost use Rattle.std.specs.Str.{is_utf8, bytes_eq};
ghost use Rattle.httparse.specs.Grammar.{is_uri_byte, is_value_byte};
ghost use Rattle.ks_http.specs.Lines.{cut_at, without_return, is_word, is_version, is_known_version, behind_parts, behind_one, behind_first, is_field_line, behind_field, is_begun_version, is_begun_target, is_begun_first, is_blank, is_begun_field, may_go_on};

use crate::cause::HttpCause;
use httparse::{is_header_value_token, is_token, is_uri_token};
use ks_base::limits::HEAD_FIELDS;

/// Where the lines of a head have come to.
#[derive(Clone, Copy)]
pub enum HeadPlace {
    /// Before the first line, behind any number of empty ones.
    Start,
    /// Behind the first line and so many fields.
    Fields(usize),
    /// Behind a line that no head has.
    Refused(HttpCause),
}

fn place_of(text: &[u8], byte: u8) -> Option<usize>
    ensures { result ≡ position (λ b. b == byte) text.now }
{
    text.iter().position(|b| *b == byte)
}

/// The text before the first such byte, and the text behind it.
pub fn cut(text: &[u8], byte: u8) -> Option<(&[u8], &[u8])>
    ensures { option_map (λ cut. (cut.0.now, cut.1.now)) result ≡ cut_at byte text.now }
{
    let Some(place) = place_of(text, byte) else {
        return None;
    };
    let (before, behind) = text.split_at(place);
    Some((before, behind.split_at(1).1))
}

#[tactic(auto, unfolding(crate::specs::Lines::without_return))]
fn without_return(line: &[u8]) -> &[u8]
    ensures { result.now ≡ without_return line.now }
{
    if line.is_empty() || line[line.len() - 1] != b'\r' {
        return line;
    }
    line.split_at(line.len() - 1).0
}

/// The two texts are the same.
pub fn is_same(text: &[u8], other: &[u8]) -> bool
    ensures { result ≡ bytes_eq text.now other.now }
{
    text == other
}

fn are_visible(text: &[u8]) -> bool
    ensures { result ≡ list_all is_uri_byte text.now }
{
    text.iter().all(|b| is_uri_token(*b))
}

fn are_in_values(text: &[u8]) -> bool
    ensures { result ≡ list_all is_value_byte text.now }
{
    text.iter().all(|b| is_header_value_token(*b))
}

#[tactic(auto, unfolding(crate::specs::Lines::is_word))]
fn is_word(text: &[u8]) -> bool
    ensures { result ≡ is_word text.now }
{
    match text {
        [] => false,
        _ => are_visible(text),
    }
}

#[tactic(auto, unfolding(crate::specs::Lines::is_version))]
fn is_version(text: &[u8]) -> bool
    ensures { result ≡ is_version text.now }
{
    if text.len() != 8 {
        return false;
    }
    if !is_same(text.split_at(5).0, b"HTTP/") {
        return false;
    }
    if !text[5].is_ascii_digit() {
        return false;
    }
    if text[6] != b'.' {
        return false;
    }
    text[7].is_ascii_digit()
}

#[tactic(auto, unfolding(crate::specs::Lines::is_known_version))]
fn is_known_version(text: &[u8]) -> bool
    ensures { result ≡ is_known_version text.now }
{
    if is_same(text, b"HTTP/1.0") {
        return true;
    }
    is_same(text, b"HTTP/1.1")
}

/// The bytes are a text in UTF-8.
pub fn is_utf8(text: &[u8]) -> bool
    ensures { result ≡ is_utf8 text.now }
{
    match std::str::from_utf8(text) {
        Ok(_) => true,
        Err(_) => false,
    }
}

#[tactic(auto, unfolding(crate::specs::Lines::behind_parts))]
fn behind_parts(method: &[u8], target: &[u8], version: &[u8]) -> HeadPlace
    ensures { result ≡ behind_parts method.now target.now version.now }
{
    if !is_word(method) {
        return HeadPlace::Refused(HttpCause::Malformed);
    }
    if !is_word(target) {
        return HeadPlace::Refused(HttpCause::Malformed);
    }
    if !is_version(version) {
        return HeadPlace::Refused(HttpCause::Malformed);
    }
    if !is_known_version(version) {
        return HeadPlace::Refused(HttpCause::Version);
    }
    if !is_token(method) {
        return HeadPlace::Refused(HttpCause::Malformed);
    }
    if !is_utf8(target) {
        return HeadPlace::Refused(HttpCause::Malformed);
    }
    HeadPlace::Fields(0)
}

#[tactic(auto, unfolding(crate::specs::Lines::behind_one))]
fn behind_one(line: &[u8]) -> HeadPlace
    ensures { result ≡ behind_one line.now }
{
    match line {
        [] => HeadPlace::Start,
        _ => HeadPlace::Refused(HttpCause::Malformed),
    }
}

#[tactic(auto, unfolding(crate::specs::Lines::behind_first, crate::specs::Lines::behind_method))]
fn behind_first(line: &[u8]) -> HeadPlace
    ensures { result ≡ behind_first line.now (cut_at 32 line.now) }
{
    let Some((method, rest)) = cut(line, b' ') else {
        return behind_one(line);
    };
    let Some((target, version)) = cut(rest, b' ') else {
        return HeadPlace::Refused(HttpCause::Malformed);
    };
    behind_parts(method, target, version)
}

#[tactic(auto, unfolding(crate::specs::Lines::is_field_line, crate::specs::Lines::is_name_and_value))]
fn is_field_line(line: &[u8]) -> bool
    ensures { result ≡ is_field_line line.now }
{
    let Some((name, value)) = cut(line, b':') else {
        return false;
    };
    if !is_token(name) {
        return false;
    }
    are_in_values(value)
}

#[tactic(auto, unfolding(crate::specs::Lines::behind_field))]
fn behind_field(count: usize, line: &[u8]) -> HeadPlace
    ensures { result ≡ behind_field count line.now }
{
    if !is_field_line(line) {
        return HeadPlace::Refused(HttpCause::Malformed);
    }
    if count >= HEAD_FIELDS {
        return HeadPlace::Refused(HttpCause::HeadTooLarge);
    }
    HeadPlace::Fields(count + 1)
}

impl HeadPlace {
    ghost use Rattle.ks_http.specs.Lines.{behind_line};

    /// Behind one more line, which is given without its line feed.
    #[tactic(auto, unfolding(crate::specs::Lines::behind_line))]
    pub fn behind(self, line: &[u8]) -> HeadPlace
        ensures { result ≡ behind_line self line.now }
    {
        match self {
            HeadPlace::Start => behind_first(without_return(line)),
            HeadPlace::Fields(count) => behind_field(count, without_return(line)),
            HeadPlace::Refused(_) => self,
        }
    }
}

#[tactic(auto, unfolding(crate::specs::Lines::is_begun_version))]
fn is_begun_version(text: &[u8]) -> bool
    ensures { result ≡ is_begun_version text.now }
{
    if b"HTTP/1.0\r".starts_with(text) {
        return true;
    }
    b"HTTP/1.1\r".starts_with(text)
}

#[tactic(auto, unfolding(crate::specs::Lines::is_blank))]
fn is_blank(line: &[u8]) -> bool
    ensures { result ≡ is_blank line.now }
{
    match line {
        [] => true,
        _ => false,
    }
}

#[tactic(auto, unfolding(crate::specs::Lines::is_begun_target))]
fn is_begun_target(text: &[u8]) -> bool
    ensures { result ≡ is_begun_target text.now (cut_at 32 text.now) }
{
    let Some((target, version)) = cut(text, b' ') else {
        return are_visible(text);
    };
    if !is_word(target) {
        return false;
    }
    if !is_utf8(target) {
        return false;
    }
    is_begun_version(version)
}

#[tactic(auto, unfolding(crate::specs::Lines::is_begun_first))]
fn is_begun_first(line: &[u8]) -> bool
    ensures { result ≡ is_begun_first line.now (cut_at 32 line.now) }
{
    if let Some((method, rest)) = cut(line, b' ') {
        if !is_token(method) {
            return false;
        }
        return is_begun_target(rest);
    }
    if is_blank(without_return(line)) {
        return true;
    }
    is_token(line)
}

#[tactic(auto, unfolding(crate::specs::Lines::is_begun_field))]
fn is_begun_field(line: &[u8]) -> bool
    ensures { result ≡ is_begun_field line.now }
{
    let text = without_return(line);
    if is_blank(text) {
        return true;
    }
    if is_token(line) {
        return true;
    }
    is_field_line(text)
}

/// A line has begun that may go on to one that a head has at this place.
#[tactic(auto, unfolding(crate::specs::Lines::may_go_on))]
pub fn may_go_on(place: HeadPlace, line: &[u8]) -> bool
    ensures { result ≡ may_go_on place line.now }
{
    match place {
        HeadPlace::Start => is_begun_first(line),
        HeadPlace::Fields(_) => is_begun_field(line),
        HeadPlace::Refused(_) => false,
    }
}
