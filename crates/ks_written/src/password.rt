//! The password of a user of an opening file.
ghost use Rattle.std.specs.Prelude.{◌≡◌};
ghost use Rattle.ks_shape.specs.Places.{place_of};
ghost use Rattle.ks_shape.specs.Readings.{Reads};
ghost use Rattle.ks_written.specs.Written.{password_in, plain_or_record};

use crate::grants::absent;
use crate::record::RecordText;
use crate::written::WrittenPassword;
use ks_base::{ShapeRefusal, Text};
use ks_shape::{Node, PASSWORD};

/// The plain password of an entry, beside which no record may stand, or the record of one.
fn plain_or_record(
    plain: Option<Text>,
    entry: &Node,
) -> Result<Option<WrittenPassword>, ShapeRefusal>
    ensures { Reads result (plain_or_record plain (place_of entry.now)) }
{
    if let Some(plain) = plain {
        absent(entry, &["password_record"])?;
        return Ok(Some(WrittenPassword::Plain(plain)));
    }
    match entry.optional(&["password_record"], &RecordText)? {
        Some(row) => Ok(Some(WrittenPassword::Record(row))),
        None => Ok(None),
    }
}

/// What an entry has of the password of a user.
#[tactic(auto, unfolding(crate::specs::Written::password_in))]
pub(crate) fn written_password(entry: &Node) -> Result<Option<WrittenPassword>, ShapeRefusal>
    ensures { Reads result (password_in (place_of entry.now)) }
{
    let plain = entry.optional(&["password"], &PASSWORD)?;
    plain_or_record(plain, entry)
}
