//! The ids of a path.
ghost use Rattle.std.specs.Prelude.{◌≡◌, slice_get};
ghost use Rattle.ks_routes.specs.Asked.{id_by, id_read, ids_in};
ghost use Rattle.ks_routes.specs.Patterns.{part_of, pattern_of, segments};

use crate::segments::Segments;
use ks_base::Id;
use std::marker::Model;

/// A path and the pattern that it fits. Contracts see the ids that stand where the pattern has them.
#[derive(Drop)]
pub struct Captured<'a> {
    pattern: &'a [u8],
    path: &'a [u8],
}

impl<'a> Model for Captured<'a> {
    ghost use Rattle.std.specs.Prelude.{List};
    ghost use Rattle.ks_base.specs.Rows.{Id};
    ghost use Rattle.ks_routes.specs.Asked.{ids_in};
    ghost use Rattle.ks_routes.specs.Patterns.{pattern_of, segments};

    ghost Value = { List Id };

    ghost view = { λ c. ids_in (pattern_of c.pattern.now) (segments c.path.now) };
}

fn id_read(segment: &[u8]) -> Option<Id>
    ensures { result ≡ id_read segment.now }
{
    match Id::read(segment) {
        Ok(id) => Some(id),
        Err(_) => None,
    }
}

/// The id that the segment is, where the part of a pattern stands for one.
fn id_by(part: &[u8], segment: &[u8]) -> Option<Id>
    ensures { result ≡ id_by (part_of part.now) segment.now }
{
    match part {
        [b'{', ..] => id_read(segment),
        _ => None,
    }
}

impl<'a> Captured<'a> {
    /// The ids of the path by the pattern.
    pub fn of(pattern: &'a [u8], path: &'a [u8]) -> Captured<'a>
        ensures { result ≡ ids_in (pattern_of pattern.now) (segments path.now) }
    {
        Captured { pattern, path }
    }

    /// The id at this place, from 0. It takes no memory.
    #[tactic(auto, unfolding(crate::specs::Asked::ids_in))]
    pub fn at(&self, place: usize) -> Option<Id>
        ensures { result ≡ slice_get self.now place }
    {
        let mut parts = Segments::of(self.pattern);
        let mut segments = Segments::of(self.path);
        let mut left = place;
        'parts: loop {
            let part = parts.next_segment()?;
            let segment = segments.next_segment()?;
            if let Some(id) = id_by(part, segment) {
                if left == 0 {
                    return Some(id);
                }
                left -= 1;
            }
        }
    }
}
