//! Moments as texts, `YYYY-MM-DDTHH:MM:SS.ffffffZ`, as the Identity API v3 writes them. A moment is a number of
//! seconds since 1970-01-01T00:00:00Z, up to the last second of the year 9999.
#![tactic(auto)]

mod civil;
mod fraction;
mod laws;
mod reading;
mod writing;

pub use laws::{one_civil_time, one_moment, one_written_text, read_back, worked_out};
pub use reading::read_time;
pub use writing::{time_digits, write_time};
