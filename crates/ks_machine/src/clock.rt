ghost use Rattle.std.specs.Prelude.{◌≡◌};
ghost use Rattle.ks_base.specs.declared.limits.TheConstants.{LAST_READING};
ghost use Rattle.ks_machine.specs.Moment.{moment_of};

use ks_base::limits::LAST_READING;

/// The moment of an event: its reading of the clock, in whole seconds since 1970-01-01T00:00:00Z, or the
/// highest moment so far where the reading is behind it. A reading counts up to a year before the end of the
/// year 9999, so that no expiry passes that end.
pub fn moment(high: u64, reading: u64) -> u64
    ensures { result ≡ moment_of high reading }
{
    high.max(reading.min(LAST_READING))
}
