ghost use Rattle.std.specs.Prelude.{◌≤◌, length};
ghost use Rattle.httparse.specs.Spans.{IsRequestWithin};
ghost use Rattle.ks_base.specs.declared.limits.TheConstants.{HEAD_BYTES};
ghost use Rattle.ks_http.specs.steps.Buffers.{Finds, FindsWithin, Judged};

use crate::cause::HttpCause;
use crate::scan::settled_cause;
use httparse::Status;
use httparse::spans::{HeaderSpan, RequestSpans, parse_request};
use ks_base::limits::HEAD_FIELDS;

/// What a look at the bytes so far finds.
#[derive(Clone, Copy)]
pub enum Look {
    /// A whole head at their front.
    Whole(RequestSpans),
    /// No head comes, whatever follows.
    Refused(HttpCause),
    /// No head yet.
    More,
}

fn judge(bytes: &[u8]) -> Look
    requires { length bytes.now ≤ HEAD_BYTES }
    ensures { Judged bytes.now result }
{
    match settled_cause(bytes) {
        Some(cause) => Look::Refused(cause),
        None => Look::More,
    }
}

/// Looks for a head at the front of these bytes.
pub fn look_for_head(bytes: &[u8], headers: &mut [HeaderSpan; HEAD_FIELDS]) -> Look
    requires { length bytes.now ≤ HEAD_BYTES }
    ensures finds { Finds bytes.now headers.new result }
    ensures within { FindsWithin bytes.now headers.new result }
{
    match parse_request(bytes, headers.as_mut_slice()) {
        Ok(Status::Complete(head)) => Look::Whole(head),
        Ok(Status::Partial) => judge(bytes),
        Err(_) => judge(bytes),
    }
}
