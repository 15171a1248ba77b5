ghost use Rattle.std.specs.Prelude.{◌≡◌, []};
ghost use Rattle.ks_ring.specs.Rings.{has_index, first_repeated, refusal_of};

use ks_base::{Key, LoadFault};

/// Whether one of these has the index.
fn has_index(keys: &[(u32, Key)], index: u32) -> bool
    ensures { result ≡ has_index index keys.now }
{
    keys.iter().any(|entry| entry.0 == index)
}

/// The first index that an earlier one has too.
fn repeated(keys: &[(u32, Key)]) -> Option<u32>
    ensures { result ≡ first_repeated [] keys.now }
{
    'entries: for (at, entry) in keys.iter().enumerate() {
        let (before, _) = keys.split_at(at);
        if has_index(before, entry.0) {
            return Some(entry.0);
        }
    }
    None
}

/// Why these keys are no ring.
#[tactic(auto, unfolding(crate::specs::Rings::refusal_of))]
pub fn refusal(keys: &[(u32, Key)]) -> Option<LoadFault>
    ensures { result ≡ refusal_of keys.now }
{
    if keys.is_empty() {
        return Some(LoadFault::Empty);
    }
    if keys.len() > 32 {
        return Some(LoadFault::TooMany);
    }
    repeated(keys).map(LoadFault::Repeated)
}
