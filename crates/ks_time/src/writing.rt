ghost use Rattle.std.specs.Prelude.{◌≡◌, ◌≤◌, IfOk};
ghost use Rattle.ks_time.specs.TimeTexts.{IsWritten, time_text};

use crate::civil::time_at;
use arrayvec::ArrayString;
use jiff_fmt::temporal::DateTimePrinter;
use ks_base::{Memory, Text};
use std::alloc::Global;

/// The text of a moment as `write_time` makes it, held in place.
pub fn time_digits(moment: u64) -> ArrayString<32>
    requires { moment ≤ 253_402_300_799 }
    ensures written { IsWritten moment result.bytes }
    ensures text { result.bytes ≡ time_text moment }
{
    let time = time_at(moment);
    let mut text = DateTimePrinter::new()
        .precision(Some(6))
        .datetime_text(time);
    text.push('Z');
    text
}

/// The text of a moment, with six zeros for the fraction of its second: `YYYY-MM-DDTHH:MM:SS.000000Z`.
pub fn write_time(alloc: Global, moment: u64) -> Result<Text, Memory>
    requires { moment ≤ 253_402_300_799 }
    ensures written { IfOk result (λ text. IsWritten moment text) }
    ensures text { IfOk result (λ text. text ≡ time_text moment) }
{
    Text::of(alloc, time_digits(moment).as_str())
}
