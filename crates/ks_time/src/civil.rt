ghost use Rattle.std.specs.Prelude.{◌≡◌, ◌≢◌, ◌≤◌, ◌*ℤ◌, ℕ, pos, false, None, IfSome};
ghost use Rattle.jiff_core.specs.DateTime.{civil_nanos};
ghost use Rattle.jiff_core.specs.declared.civil.datetime.DateTime.{DateTime};
ghost use Rattle.jiff_fmt.specs.Text.{datetime_text};
ghost use Rattle.ks_time.specs.TimeTexts.{IsCivilText};

use jiff_core::civil::DateTime;
use jiff_fmt::temporal::{self, DateTimePrinter};

/// The time that is printed so. The parser takes more forms than the printer writes, so what it took is
/// printed again.
fn printed_so(text: &[u8]) -> Option<DateTime>
    ensures some { IfSome result (λ time. text.now ≡ datetime_text false 84 None time) }
    ensures none { result ≡ None → (time : DateTime) → text.now ≢ datetime_text false 84 None time }
{
    let Ok(time) = temporal::parse_datetime(text) else {
        return None;
    };
    let printed = DateTimePrinter::new().datetime_text(time);
    if printed.as_str().as_bytes() == text {
        Some(time)
    } else {
        None
    }
}

/// The time that clocks show at a moment.
pub fn time_at(moment: u64) -> DateTime
    requires { moment ≤ 253_402_300_799 }
    ensures { civil_nanos result ≡ pos moment *ℤ pos 1_000_000_000 }
{
    let Ok(time) = DateTime::from_nanosecond(moment as i128 * 1_000_000_000) else {
        unreachable!();
    };
    time
}

/// The moment of `YYYY-MM-DDTHH:MM:SS`.
pub fn civil_moment(text: &[u8; 19]) -> Option<u64>
    ensures some { IfSome result (λ moment. IsCivilText text.now moment) }
    ensures none { result ≡ None → (moment : ℕ) → ¬ IsCivilText text.now moment }
{
    let Some(time) = printed_so(text) else {
        return None;
    };
    let second = time.to_second();
    if second < 0 {
        None
    } else {
        Some(second as u64)
    }
}
