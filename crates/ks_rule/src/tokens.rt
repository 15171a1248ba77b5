ghost use Rattle.std.specs.Prelude.{◌≡◌, ◌≢◌, ℕ, List, ◌-◌, ◌<◌, [], ◌∷◌, ◌++◌, false, length, drop, replicate, slice_index, MatchOption, IfSome, IsUtf8};
ghost use Rattle.std.specs.List.{position, position_or_len, before_first};
ghost use Rattle.ks_rule.specs.Tokens.{closing, is_space, is_opening, tokens, token_of, without_closes};
ghost use Rattle.ks_rule.specs.Seen.{seen, IsText};

use std::marker::Model;

/// What may stand behind a part of a rule.
#[derive(Clone, Copy)]
pub enum End {
    Close,
    And,
    Or,
}

/// A token of the text of a rule.
#[derive(Clone, Copy)]
pub enum Token<'a> {
    Open,
    Not,
    Check(&'a [u8]),
    End(End),
}

/// The tokens of a text, from the first that is left.
#[derive(Drop)]
pub struct Tokens<'a> {
    /// How many closing parentheses come before the rest.
    closes: usize,
    rest: &'a [u8],
}

impl<'a> Model for Tokens<'a> {
    ghost use Rattle.std.specs.Prelude.{List, ◌++◌, replicate, IsUtf8};
    ghost use Rattle.ks_rule.specs.Tokens.{Token as Seen, closing, tokens};

    ghost Value = { List Seen };

    ghost view = { λ t. replicate t.closes closing ++ tokens t.rest.now };

    ghost invariant = { λ t. IsUtf8 t.rest.now };
}

const fn is_space(byte: u8) -> bool
    ensures { result ≡ is_space byte }
{
    matches!(byte, b' ' | b'\t' | b'\r' | b'\n')
}

/// The text from its first word on.
fn without_spaces(text: &[u8]) -> &[u8]
    requires { IsUtf8 text.now }
    ensures same { tokens result.now ≡ tokens text.now }
    ensures word { 0 < length result.now → is_space (slice_index result.now 0) ≡ false }
    ensures utf8 { IsUtf8 result.now }
{
    let mut rest = text;
    while let Some((first, behind)) = rest.split_first() {
        if !is_space(*first) {
            return rest;
        }
        rest = behind;
    }
    rest
}

fn first_space(text: &[u8]) -> Option<usize>
    ensures { result ≡ position is_space text.now }
{
    text.iter().position(|byte| is_space(*byte))
}

/// How long the first word of a text is.
fn word_len(text: &[u8]) -> usize
    ensures { result ≡ position_or_len is_space text.now }
{
    first_space(text).unwrap_or(text.len())
}

/// The first word of a text, and what stands behind it.
fn cut_word(text: &[u8]) -> (&[u8], &[u8])
    requires { IsUtf8 text.now }
    ensures word { result.0.now ≡ before_first is_space text.now }
    ensures behind { result.1.now ≡ drop (position_or_len is_space text.now) text.now }
    ensures utf8 { IsUtf8 result.0.now }
    ensures utf8_behind { IsUtf8 result.1.now }
{
    text.split_at(word_len(text))
}

/// A word without its last parentheses.
fn without_closes(word: &[u8]) -> &[u8]
    requires { IsUtf8 word.now }
    ensures kept { result.now ≡ without_closes word.now }
    ensures utf8 { IsUtf8 result.now }
{
    let mut kept = word;
    while let Some((b')', front)) = kept.split_last() {
        kept = front;
    }
    kept
}

impl<'a> Token<'a> {
    /// An operator or a check.
    fn of(text: &'a [u8]) -> Token<'a>
        requires { IsUtf8 text.now }
        ensures seen { seen result ≡ token_of text.now }
        ensures text { IsText result }
    {
        if text.eq_ignore_ascii_case(b"not") {
            Token::Not
        } else if text.eq_ignore_ascii_case(b"and") {
            Token::End(End::And)
        } else if text.eq_ignore_ascii_case(b"or") {
            Token::End(End::Or)
        } else {
            Token::Check(text)
        }
    }
}

impl<'a> Tokens<'a> {
    pub fn of(text: &'a [u8]) -> Tokens<'a>
        requires { IsUtf8 text.now }
        ensures { result ≡ tokens text.now }
    {
        Tokens {
            closes: 0,
            rest: text,
        }
    }

    pub fn next_token(&mut self) -> Option<Token<'a>>
        ensures next { MatchOption result (self.old ≡ []) (λ token. self.old ≡ seen token ∷ self.new) }
        ensures text { IfSome result IsText }
    {
        if self.closes > 0 {
            self.closes -= 1;
            return Some(Token::End(End::Close));
        }
        let rest = without_spaces(self.rest);
        let Some((first, behind)) = rest.split_first() else {
            return None;
        };
        if *first == b'(' {
            self.rest = behind;
            return Some(Token::Open);
        }
        Some(self.next_of_word(rest))
    }

    /// The first token of a word that begins with no parenthesis to open, where nothing is left of the
    /// word before.
    fn next_of_word(&mut self, text: &'a [u8]) -> Token<'a>
        requires utf8 { IsUtf8 text.now }
        requires word { (b : ℕ) × (more : List ℕ) × (text.now ≡ b ∷ more) × (is_space b ≡ false) × (is_opening b ≡ false) }
        ensures next { tokens text.now ≡ seen result ∷ self.new }
        ensures text { IsText result }
    {
        let (word, behind) = cut_word(text);
        let kept = without_closes(word);
        self.rest = behind;
        if kept.is_empty() {
            self.closes = word.len() - 1;
            return Token::End(End::Close);
        }
        self.closes = word.len() - kept.len();
        Token::of(kept)
    }
}
