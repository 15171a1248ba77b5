ghost use Rattle.std.specs.Prelude.{◌≡◌, ◌≤◌, length};
ghost use Rattle.ks_base.specs.declared.limits.TheConstants.{HEAD_BYTES};
ghost use Rattle.ks_http.specs.Lines.{reached, full_cause, cause_behind, settled_cause};

use crate::cause::HttpCause;
use crate::lines::{HeadPlace, cut, may_go_on};
use ks_base::limits::HEAD_BYTES;

/// Where the lines of some bytes have come to, and the line that has begun there.
#[derive(Clone, Copy)]
struct Begun<'a> {
    place: HeadPlace,
    line: &'a [u8],
}

fn reach(bytes: &[u8]) -> Begun<'_>
    ensures place { result.place ≡ (reached bytes.now).place }
    ensures line { result.line.now ≡ (reached bytes.now).line }
{
    let mut place = HeadPlace::Start;
    let mut rest = bytes;
    'lines: while let Some((line, behind)) = cut(rest, b'\n') {
        place = place.behind(line);
        rest = behind;
    }
    Begun { place, line: rest }
}

#[tactic(auto, unfolding(crate::specs::Lines::full_cause))]
fn full_cause(count: usize, place: HeadPlace, line: &[u8]) -> Option<HttpCause>
    ensures { result ≡ full_cause count place line.now }
{
    if count < HEAD_BYTES {
        return None;
    }
    if may_go_on(place, line) {
        return Some(HttpCause::HeadTooLarge);
    }
    Some(HttpCause::Malformed)
}

#[tactic(auto, unfolding(crate::specs::Lines::cause_behind))]
fn cause_behind(count: usize, place: HeadPlace, line: &[u8]) -> Option<HttpCause>
    ensures { result ≡ cause_behind count place line.now }
{
    match place {
        HeadPlace::Refused(cause) => Some(cause),
        HeadPlace::Start | HeadPlace::Fields(_) => full_cause(count, place, line),
    }
}

/// The cause that these bytes have however they go on, where they begin with no whole head.
pub fn settled_cause(bytes: &[u8]) -> Option<HttpCause>
    requires { length bytes.now ≤ HEAD_BYTES }
    ensures { result ≡ settled_cause bytes.now }
{
    let begun = reach(bytes);
    cause_behind(bytes.len(), begun.place, begun.line)
}
