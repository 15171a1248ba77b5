ghost use Rattle.std.specs.Prelude.{All, length};
ghost use Rattle.httparse.specs.Spans.{IsHeaderWithin};

use crate::cause::HttpCause;
use crate::ending::Ending;
use crate::values::{allowed, capped_number, is_named, is_number, lists_option};
use httparse::spans::HeaderSpan;

/// The fields of a head, in its bytes.
#[derive(Clone, Copy)]
pub struct Fields<'a> {
    pub bytes: &'a [u8],
    pub spans: &'a [HeaderSpan],
    ghost within: { All (IsHeaderWithin (length bytes.now)) spans.now },
}

/// The values of a field that may come once.
#[derive(Clone, Copy)]
pub enum Only<'a> {
    Absent,
    Once(&'a [u8]),
    Repeated,
}

impl<'a> Only<'a> {
    ghost use Rattle.std.specs.Prelude.{◌∷◌, ℕ, List};
    ghost use Rattle.ks_http.specs.steps.Says.{Begun};

    fn and(self, value: &'a [u8]) -> Only<'a>
        ensures { (rest values : List (List ℕ)) → Begun (value.now ∷ rest) self.entry values → Begun rest result values }
    {
        match self {
            Only::Absent => Only::Once(value),
            Only::Once(_) | Only::Repeated => Only::Repeated,
        }
    }
}

impl<'a> Fields<'a> {
    ghost use Rattle.std.specs.Prelude.{◌≡◌, codes};
    ghost use Rattle.ks_http.specs.Fields.{values_of, has_field, connection_has, closes};
    ghost use Rattle.ks_http.specs.Heads.{body_length};
    ghost use Rattle.ks_http.specs.steps.Says.{named, IsOnly, Says, SaysCapped};

    /// The value of the field of this name.
    #[tactic(auto, unfolding(crate::specs::Fields::values_of), using(crate::proofs::FieldLemmas::only_from))]
    pub fn only(&self, name: &[u8]) -> Only<'a>
        ensures { IsOnly (values_of name.now (named self.now)) result }
    {
        let mut found = Only::Absent;
        for field in self.spans {
            if is_named(field.name.of(self.bytes), name) {
                found = found.and(field.value.of(self.bytes));
            }
        }
        found
    }

    fn has(&self, name: &[u8]) -> bool
        ensures { result ≡ has_field name.now (named self.now) }
    {
        for field in self.spans {
            if is_named(field.name.of(self.bytes), name) {
                return true;
            }
        }
        false
    }

    /// What `Content-Length` says, or one more than a body may have where it says more.
    #[tactic(auto, unfolding(crate::specs::Heads::announced))]
    fn announced(&self) -> Result<usize, Ending>
        ensures { SaysCapped (values_of (codes "Content-Length") (named self.now)) result }
    {
        match self.only(b"Content-Length") {
            Only::Absent => Ok(0),
            Only::Once(value) if is_number(value) => Ok(capped_number(value)),
            Only::Once(_) | Only::Repeated => Err(Ending::Bad(HttpCause::Malformed)),
        }
    }

    /// How many bytes the body has.
    #[tactic(auto, unfolding(crate::specs::Heads::body_length, crate::specs::Heads::behind))]
    pub fn body_length(&self) -> Result<usize, Ending>
        ensures { Says (body_length (named self.now)) result }
    {
        let length = self.announced()?;
        allowed(self.has(b"Transfer-Encoding"), length)
    }

    fn connection_has(&self, word: &[u8]) -> bool
        ensures { result ≡ connection_has word.now (named self.now) }
    {
        for field in self.spans {
            if is_named(field.name.of(self.bytes), b"Connection")
                && lists_option(word, field.value.of(self.bytes))
            {
                return true;
            }
        }
        false
    }

    /// The connection ends with the request: `close` wins, and HTTP/1.0 closes unless it is kept alive.
    #[tactic(auto, unfolding(crate::specs::Fields::closes))]
    pub fn closes(&self, minor: u8) -> bool
        ensures { result ≡ closes minor (named self.now) }
    {
        if self.connection_has(b"close") {
            return true;
        }
        if minor != 0 {
            return false;
        }
        !self.connection_has(b"keep-alive")
    }
}
