ghost use Rattle.std.specs.Prelude.{◌≡◌};
ghost use Rattle.ks_base.specs.Ids.{is_id};
ghost use Rattle.ks_routes.specs.Patterns.{fits, part_of, pattern_of, segments, takes};

use crate::segments::Segments;
use ks_base::Id;

fn is_id(segment: &[u8]) -> bool
    ensures { result ≡ is_id segment.now }
{
    Id::read(segment).is_ok()
}

/// Whether a segment of a path is one that this segment of a pattern takes: any id, where that begins
/// with a brace, else the same text.
fn takes(part: &[u8], segment: &[u8]) -> bool
    ensures { result ≡ takes (part_of part.now) segment.now }
{
    match part {
        [b'{', ..] => is_id(segment),
        _ => part == segment,
    }
}

/// Whether the path has one segment for each of the pattern, which takes it.
#[tactic(auto, unfolding(crate::specs::Patterns::fits))]
pub fn fits(pattern: &[u8], path: &[u8]) -> bool
    ensures { result ≡ fits (pattern_of pattern.now) (segments path.now) }
{
    let mut parts = Segments::of(pattern);
    let mut segments = Segments::of(path);
    'parts: loop {
        match (parts.next_segment(), segments.next_segment()) {
            (Some(part), Some(segment)) if takes(part, segment) => {}
            (None, None) => return true,
            _ => return false,
        }
    }
}
