//! How long the request in front of some bytes looks. It decides when a worker comes to it and nothing else: what the
//! request is the worker reads by itself. So a body that guesses wrong costs a wait that has a deadline, and no answer.
ghost use Rattle.std.specs.Prelude.{◌<◌, IfSome, length};

use ks_base::limits::{BODY_BYTES, HEAD_BYTES};

/// What `Content-Length` has said so far.
#[derive(Clone, Copy)]
enum Announced {
    Nothing,
    Bytes(usize),
    /// It came twice, or is no number, or is more than is read: the request is refused, and its body not waited for.
    Refused,
}

impl Announced {
    /// Behind one more `Content-Length` of this value.
    fn and(self, value: &[u8]) -> Announced {
        match (self, number_of(value)) {
            (Announced::Nothing, Some(bytes)) => Announced::Bytes(bytes),
            (Announced::Nothing | Announced::Bytes(_) | Announced::Refused, _) =>
                Announced::Refused,
        }
    }

    fn bytes(self) -> usize {
        match self {
            Announced::Bytes(bytes) => bytes,
            Announced::Nothing | Announced::Refused => 0,
        }
    }
}

/// What the lines of a head so far say.
#[derive(Clone, Copy)]
enum Head {
    /// Before the first line, behind any number of empty ones.
    Start,
    /// Behind the first line, and some fields.
    Fields(Announced),
    /// Behind the empty line that ends it.
    Whole(Announced),
    /// Behind a line that no head has.
    Refused,
}

impl Head {
    /// Behind one more line.
    fn behind(self, line: &[u8]) -> Head {
        match self {
            Head::Start if line.is_empty() => Head::Start,
            Head::Start if is_first_line(line) => Head::Fields(Announced::Nothing),
            Head::Fields(said) if line.is_empty() => Head::Whole(said),
            Head::Fields(said) => behind_field(said, line),
            Head::Start | Head::Whole(_) | Head::Refused => Head::Refused,
        }
    }
}

/// Behind one more field.
fn behind_field(said: Announced, line: &[u8]) -> Head {
    let Some((name, value)) = cut(line, b':') else {
        return Head::Refused;
    };
    if name.eq_ignore_ascii_case(b"Content-Length") {
        return Head::Fields(said.and(value));
    }
    Head::Fields(said)
}

/// Whether a line may be the first one of a request (RFC 9112, section 3): it ends with a version that is spoken here.
fn is_first_line(line: &[u8]) -> bool {
    line.ends_with(b" HTTP/1.1") || line.ends_with(b" HTTP/1.0")
}

/// The decimal number that a value writes, within blanks, unless it is more than a body may have.
fn number_of(value: &[u8]) -> Option<usize> {
    let digits = value.trim_ascii();
    if digits.is_empty() {
        return None;
    }
    let mut number = 0usize;
    for digit in digits {
        if !digit.is_ascii_digit() {
            return None;
        }
        number = number
            .saturating_mul(10)
            .saturating_add(usize::from(digit.saturating_sub(b'0')));
    }
    (number <= BODY_BYTES).then_some(number)
}

/// The bytes before the first such byte, and those behind it.
fn cut(bytes: &[u8], byte: u8) -> Option<(&[u8], &[u8])>
    ensures shorter { IfSome result (λ cut. length cut.1.now < length bytes.now) }
{
    let place = bytes.iter().position(|other| *other == byte)?;
    let (before, behind) = bytes.split_at(place);
    Some((before, behind.split_at(1).1))
}

fn without_return(line: &[u8]) -> &[u8] {
    line.strip_suffix(b"\r").unwrap_or(line)
}

/// How long the request in front of these bytes looks, once its head has come, or all of them once they can't be a
/// head; nothing as long as the head may go on.
pub fn looks_long(bytes: &[u8]) -> Option<usize> {
    let window = bytes.split_at(HEAD_BYTES.min(bytes.len())).0;
    let mut head = Head::Start;
    let mut rest = window;
    'lines: while let Some((line, behind)) = cut(rest, b'\n') {
        rest = behind;
        head = head.behind(without_return(line));
        match head {
            Head::Start | Head::Fields(_) => {}
            Head::Whole(said) => {
                let long = window.len().saturating_sub(rest.len());
                return Some(long.saturating_add(said.bytes()));
            }
            Head::Refused => return Some(bytes.len()),
        }
    }
    (window.len() == HEAD_BYTES).then_some(bytes.len())
}
