ghost use Rattle.std.specs.Prelude.{◌≡◌, ℕ, List, false, Some, ◌++◌, MatchOption};
ghost use Rattle.ks_rule.specs.Filling.{filled};
ghost use Rattle.ks_rule.specs.Fronts.{Fills, same_by};
ghost use Rattle.ks_rule.specs.Truth.{agrees};

use crate::credentials::Attributes;
use crate::kind::value_in;
use crate::pieces::{Front, Pieces};

/// A part of a filled text.
enum Part<'a> {
    /// Nothing: the text has ended.
    End,
    Text(&'a [u8]),
    /// The text is not there.
    Missing,
}

/// How texts are compared.
#[derive(Clone, Copy)]
pub enum Case {
    Exact,
    /// Without the case of ASCII letters.
    Ignored,
}

fn next_part<'a>(pieces: &mut Pieces<'a>, target: &'a Attributes) -> Part<'a>
    ensures { Fills target.now result pieces.old pieces.new }
{
    match pieces.next_piece() {
        Front::End => Part::End,
        Front::Plain(text) => Part::Text(text),
        Front::Key(key) => match value_in(target, key) {
            Some(text) => Part::Text(text),
            None => Part::Missing,
        },
        Front::Fault => Part::Missing,
    }
}

impl Case {
    fn same(self, a: &[u8], b: &[u8]) -> bool
        ensures { result ≡ same_by self a.now b.now }
    {
        match self {
            Case::Exact => a == b,
            Case::Ignored => a.eq_ignore_ascii_case(b),
        }
    }

    /// What is left of a value behind this part.
    fn strip<'a>(self, value: &'a [u8], part: &[u8]) -> Option<&'a [u8]>
        ensures { MatchOption result ((more : List ℕ) → same_by self value.now (part.now ++ more) ≡ false)
            (λ left. (more : List ℕ) → same_by self value.now (part.now ++ more) ≡ same_by self left.now more) }
    {
        if value.len() < part.len() {
            return None;
        }
        let (front, rest) = value.split_at(part.len());
        if self.same(front, part) {
            Some(rest)
        } else {
            None
        }
    }
}

/// Whether the text, filled from the target, is there and is this value.
pub fn fills<'a>(text: &'a [u8], target: &'a Attributes, value: &[u8], case: Case) -> bool
    ensures { result ≡ agrees (same_by case) (Some value.now) (filled target.now text.now) }
{
    let mut pieces = Pieces::of(text);
    let mut left = value;
    'parts: loop {
        match next_part(&mut pieces, target) {
            Part::End => return left.is_empty(),
            Part::Missing => return false,
            Part::Text(part) => match case.strip(left, part) {
                Some(behind) => left = behind,
                None => return false,
            },
        }
    }
}
