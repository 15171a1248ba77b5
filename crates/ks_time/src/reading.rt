ghost use Rattle.std.specs.Prelude.{◌≡◌, ℕ, None, IfSome};
ghost use Rattle.ks_time.specs.TimeTexts.{IsTimeText};

use crate::civil::civil_moment;
use crate::fraction::is_fraction;

/// The moment that a text names, with what it has of a fraction of a second left out. `None` for another form
/// than `YYYY-MM-DDTHH:MM:SS`, nothing or a point and one to six digits, and `Z`; for a date or a time that is
/// none; and for a year before 1970.
pub fn read_time(text: &[u8]) -> Option<u64>
    ensures some { IfSome result (λ moment. IsTimeText text.now moment) }
    ensures none { result ≡ None → (moment : ℕ) → ¬ IsTimeText text.now moment }
{
    let Some((b'Z', front)) = text.split_last() else {
        return None;
    };
    let Some((civil, fraction)) = front.split_first_chunk::<19>() else {
        return None;
    };
    if !is_fraction(fraction) {
        return None;
    }
    civil_moment(civil)
}
