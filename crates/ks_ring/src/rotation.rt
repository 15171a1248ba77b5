ghost use Rattle.std.specs.Prelude.{◌≡◌, ◌<◌, ◌≤◌, find, option_copied};
ghost use Rattle.arrayvec.specs.ArrayVec.{array_vec_len};
ghost use Rattle.ks_base.specs.declared.limits.TheConstants.{LAST_KEY_INDEX};
ghost use Rattle.ks_ring.specs.Rings.{promoted, active, highest, is_staged};

use crate::HeldKey;
use arrayvec::ArrayVec;

/// The staged key, where there is one.
fn staged(held: &[HeldKey]) -> Option<&HeldKey>
    ensures { option_copied result ≡ find is_staged held.now }
{
    held.iter().find(|held| held.index == 0)
}

/// Takes the staged key out.
fn drop_staged(held: &mut ArrayVec<HeldKey, 32>)
    ensures { held.new.items ≡ active held.old.items }
{
    held.retain(|held| held.index != 0);
}

/// Gives a staged key the index above the highest.
pub fn promote(held: &mut ArrayVec<HeldKey, 32>)
    requires some { 0 < array_vec_len held.old }
    requires most { array_vec_len held.old ≤ 32 }
    requires index { highest held.old.items < LAST_KEY_INDEX }
    ensures { held.new.items ≡ promoted held.old.items }
{
    let above = held.as_slice()[0].index + 1;
    let staged = staged(held.as_slice()).copied();
    drop_staged(held);
    if let Some(staged) = staged {
        held.insert(
            0,
            HeldKey {
                index: above,
                ..staged
            },
        );
    }
}
