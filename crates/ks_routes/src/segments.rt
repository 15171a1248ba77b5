ghost use Rattle.std.specs.Prelude.{◌≡◌, [], ◌∷◌, MatchOption, ◌==◌};
ghost use Rattle.std.specs.List.{position};
ghost use Rattle.ks_routes.specs.Patterns.{segments};
ghost use Rattle.ks_routes.specs.steps.Segments.{left_of};

use std::marker::Model;

const SLASH: u8 = b'/';

/// The segments of a text between its slashes, from the first.
#[derive(Drop)]
pub struct Segments<'a> {
    /// What is left, where a segment is.
    rest: Option<&'a [u8]>,
}

impl<'a> Model for Segments<'a> {
    ghost use Rattle.std.specs.Prelude.{ℕ, List};
    ghost use Rattle.ks_routes.specs.steps.Segments.{left_of};

    ghost Value = { List (List ℕ) };

    ghost view = { λ s. left_of s.rest };
}

fn slash_in(text: &[u8]) -> Option<usize>
    ensures { result ≡ position (λ b. b == 47) text.now }
{
    text.iter().position(|byte| *byte == SLASH)
}

/// The first segment, and the text behind the slash that ends it.
fn cut(text: &[u8]) -> (&[u8], Option<&[u8]>)
    ensures { segments text.now ≡ result.0.now ∷ left_of result.1 }
{
    match slash_in(text) {
        Some(end) => {
            let (segment, behind) = text.split_at(end);
            (segment, Some(behind.split_at(1).1))
        }
        None => (text, None),
    }
}

impl<'a> Segments<'a> {
    pub fn of(text: &'a [u8]) -> Segments<'a>
        ensures { result ≡ segments text.now }
    {
        Segments { rest: Some(text) }
    }

    /// The next segment.
    pub fn next_segment(&mut self) -> Option<&'a [u8]>
        ensures { MatchOption result (self.old ≡ []) (λ segment. self.old ≡ segment.now ∷ self.new) }
    {
        let (segment, behind) = cut(self.rest?);
        self.rest = behind;
        Some(segment)
    }
}
