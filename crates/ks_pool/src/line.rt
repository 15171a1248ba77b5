//! The line of a request in the log.

use ks_base::{Method, Text};
use ks_outside::{Answered, Scope, Who};
use std::fmt;
use std::net::IpAddr;

/// How many bytes a field that comes from outside takes at most, so that a line is shorter than what a pipe takes whole.
const FIELD_BYTES: usize = 1_000;

/// What a desk itself knows of a request.
#[derive(Clone, Copy)]
pub struct Seen {
    /// Seconds since 1970.
    pub moment: u64,
    /// The address of the client, where it is known.
    pub client: Option<IpAddr>,
    /// The number of the worker that answered it.
    pub worker: u32,
    /// How many microseconds that took.
    pub micros: u128,
}

/// A request, as the log tells it.
#[derive(Clone, Copy)]
pub struct Line<'a> {
    pub seen: Seen,
    pub answered: &'a Answered,
}

impl fmt::Display for Line<'_> {
    fn fmt<W: fmt::Write>(&self, f: &mut fmt::Formatter<W>) -> fmt::Result {
        let seen = &self.seen;
        let answered = self.answered;
        write!(f, "{} {} ", seen.moment, OrNothing(seen.client))?;
        write!(f, "{}.{} ", seen.worker, answered.connection)?;
        write!(f, "{} {} ", answered.request, method_name(answered.method))?;
        write!(f, "{} ", Sent::path(answered.path.as_ref()))?;
        write!(f, "{} ", OrNothing(answered.status))?;
        write!(f, "{} {} ", User(&answered.who), ScopeWord(&answered.who))?;
        write!(f, "{} ", seen.micros)?;
        write!(f, "{}", Sent::path(answered.cause.as_ref()))
    }
}

/// A field, or `-` where there is none.
#[derive(Clone, Copy)]
struct OrNothing<T>(Option<T>);

impl<T: fmt::Display> fmt::Display for OrNothing<T> {
    fn fmt<W: fmt::Write>(&self, f: &mut fmt::Formatter<W>) -> fmt::Result {
        match &self.0 {
            Some(field) => write!(f, "{field}"),
            None => f.write_str("-"),
        }
    }
}

/// A text from outside. All of its bytes that are not visible ASCII are written as a percent sign and two digits, so that it
/// stays one field, and so are those that part it or stand for others. What is longer than a field may be is cut.
#[derive(Clone, Copy)]
struct Sent<'a> {
    text: Option<&'a Text>,
    /// The visible bytes that are written so, too.
    hidden: &'static [u8],
}

impl<'a> Sent<'a> {
    /// A path, in which a percent sign already stands for a byte.
    fn path(text: Option<&'a Text>) -> Sent<'a> {
        Sent { text, hidden: b"" }
    }

    /// A name, before or behind an at sign.
    fn name(text: &'a Text) -> Sent<'a> {
        Sent {
            text: Some(text),
            hidden: b"%@",
        }
    }

    fn is_shown(&self, byte: u8) -> bool {
        byte.is_ascii_graphic() && !self.hidden.contains(&byte)
    }
}

impl fmt::Display for Sent<'_> {
    fn fmt<W: fmt::Write>(&self, f: &mut fmt::Formatter<W>) -> fmt::Result {
        let Some(text) = self.text else {
            return f.write_str("-");
        };
        let mut room = FIELD_BYTES;
        for byte in text.as_slice() {
            if room < 3 {
                return Ok(());
            }
            if self.is_shown(*byte) {
                f.write_char(char::from(*byte))?;
                room -= 1;
            } else {
                write!(f, "%{byte:02X}")?;
                room -= 3;
            }
        }
        Ok(())
    }
}

/// The user of whom a request spoke.
#[derive(Clone, Copy)]
struct User<'a>(&'a Who);

impl fmt::Display for User<'_> {
    fn fmt<W: fmt::Write>(&self, f: &mut fmt::Formatter<W>) -> fmt::Result {
        match self.0 {
            Who::Nobody => f.write_str("-"),
            Who::Caller(user, _) | Who::Login(user) => f.write_str(user.as_str()),
            Who::LoginByName(name, domain) => {
                write!(f, "{}@{}", Sent::name(name), Sent::name(domain))
            }
        }
    }
}

/// Where the caller's token has its roles.
#[derive(Clone, Copy)]
struct ScopeWord<'a>(&'a Who);

impl fmt::Display for ScopeWord<'_> {
    fn fmt<W: fmt::Write>(&self, f: &mut fmt::Formatter<W>) -> fmt::Result {
        match self.0 {
            Who::Caller(_, Scope::Domain(id)) => write!(f, "domain:{}", id.as_str()),
            Who::Caller(_, Scope::Project(id)) => write!(f, "project:{}", id.as_str()),
            Who::Caller(_, Scope::Trust(id)) => write!(f, "trust:{}", id.as_str()),
            Who::Caller(_, Scope::System) => f.write_str("system"),
            Who::Caller(_, Scope::Unscoped)
            | Who::Nobody
            | Who::Login(_)
            | Who::LoginByName(_, _) => f.write_str("-"),
        }
    }
}

fn method_name(method: Method) -> &'static str {
    match method {
        Method::Get => "GET",
        Method::Head => "HEAD",
        Method::Post => "POST",
        Method::Patch => "PATCH",
        Method::Put => "PUT",
        Method::Delete => "DELETE",
        Method::Other => "OTHER",
    }
}
