ghost use Rattle.std.specs.Prelude.{◌≡◌, ◌≢◌, ℕ, List, None, false, [], ◌∷◌, ◌++◌, MatchOption};
ghost use Rattle.std.specs.List.{position, position_or_len};
ghost use Rattle.ks_rule.specs.Tokens.{is_closing};
ghost use Rattle.ks_rule.specs.Filling.{is_percent, is_fillable, keyed, IsKey};
ghost use Rattle.ks_rule.specs.Fronts.{Begins};

use std::marker::Model;

/// What a text that is filled begins with.
pub enum Front<'a> {
    /// Nothing: it has ended.
    End,
    /// Bytes that stand for themselves.
    Plain(&'a [u8]),
    /// The key of a `%(key)s`.
    Key(&'a [u8]),
    /// A `%` that is none of these.
    Fault,
}

/// The pieces of a text that is filled, from the first that is left.
#[derive(Drop)]
pub struct Pieces<'a> {
    rest: &'a [u8],
}

impl<'a> Model for Pieces<'a> {
    ghost use Rattle.std.specs.Prelude.{ℕ, List};

    ghost Value = { List ℕ };

    ghost view = { λ p. p.rest.now };
}

fn percent_in(text: &[u8]) -> Option<usize>
    ensures { result ≡ position is_percent text.now }
{
    text.iter().position(|byte| *byte == b'%')
}

fn closing_in(text: &[u8]) -> Option<usize>
    ensures { result ≡ position is_closing text.now }
{
    text.iter().position(|byte| *byte == b')')
}

/// How many bytes stand before the first `%`.
fn plain_len(text: &[u8]) -> usize
    ensures { result ≡ position_or_len is_percent text.now }
{
    percent_in(text).unwrap_or(text.len())
}

/// The key that a text begins with, before a `)s`, and what stands behind these.
fn cut_key(text: &[u8]) -> Option<(&[u8], &[u8])>
    ensures { MatchOption result (keyed text.now [] ≡ None)
        (λ parts. IsKey parts.0.now × (text.now ≡ parts.0.now ++ 41 ∷ 115 ∷ parts.1.now)) }
{
    let Some(end) = closing_in(text) else {
        return None;
    };
    let (key, behind) = text.split_at(end);
    if key.is_empty() {
        return None;
    }
    let Some((mark, rest)) = behind.split_at(1).1.split_first() else {
        return None;
    };
    if *mark == b's' {
        Some((key, rest))
    } else {
        None
    }
}

impl<'a> Pieces<'a> {
    pub fn of(text: &'a [u8]) -> Pieces<'a>
        ensures { result ≡ text.now }
    {
        Pieces { rest: text }
    }

    pub fn next_piece(&mut self) -> Front<'a>
        ensures { Begins result self.old self.new }
    {
        let Some((first, behind)) = self.rest.split_first() else {
            return Front::End;
        };
        if *first == b'%' {
            self.next_key(behind)
        } else {
            self.next_plain()
        }
    }

    /// The bytes before the next `%`.
    fn next_plain(&mut self) -> Front<'a>
        requires { (b : ℕ) × (more : List ℕ) × (self.old ≡ b ∷ more) × (is_percent b ≡ false) }
        ensures { Begins result self.old self.new }
    {
        let (text, behind) = self.rest.split_at(plain_len(self.rest));
        self.rest = behind;
        Front::Plain(text)
    }

    /// The key of a `%`, from what stands behind it.
    fn next_key(&mut self, marked: &'a [u8]) -> Front<'a>
        requires { self.old ≡ 37 ∷ marked.now }
        ensures { Begins result self.old self.new }
    {
        let Some((first, behind)) = marked.split_first() else {
            return Front::Fault;
        };
        if *first != b'(' {
            return Front::Fault;
        }
        match cut_key(behind) {
            Some((key, rest)) => {
                self.rest = rest;
                Front::Key(key)
            }
            None => Front::Fault,
        }
    }
}

/// Whether a text can be filled: each `%` in it begins a `%(key)s`.
#[tactic(auto, unfolding(crate::specs::Filling::is_fillable))]
pub fn is_fillable(text: &[u8]) -> bool
    ensures { result ≡ is_fillable text.now }
{
    let mut pieces = Pieces::of(text);
    'pieces: loop {
        match pieces.next_piece() {
            Front::End => return true,
            Front::Fault => return false,
            Front::Plain(_) | Front::Key(_) => {}
        }
    }
}
