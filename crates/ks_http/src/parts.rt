ghost use Rattle.std.specs.Prelude.{◌≡◌, IfOk};
ghost use Rattle.ks_http.specs.Fields.{values_of};
ghost use Rattle.ks_http.specs.Heads.{method_of, path_of, query_of, text_of, path_text, token_of, said_of};
ghost use Rattle.ks_http.specs.steps.Says.{Says, named};

use crate::cause::HttpCause;
use crate::ending::Ending;
use crate::fields::{Fields, Only};
use crate::lines::{cut, is_same};
use crate::request::Request;
use ks_base::{Bytes, Method, Text};
use std::alloc::Global;

/// What a head says of its request.
pub struct RequestParts {
    pub method: Method,
    pub path: Text,
    pub query: Bytes,
    pub auth: Option<Text>,
    pub subject: Option<Text>,
    /// How many bytes the body has.
    pub length: usize,
    pub close: bool,
}

impl Drop for RequestParts {
    fn drop(self) {
        let RequestParts {
            method: _,
            path: _,
            query: _,
            auth: _,
            subject: _,
            length: _,
            close: _,
        } = self;
    }
}

#[tactic(auto, unfolding(crate::specs::Heads::method_of))]
fn method_of(text: &[u8]) -> Method
    ensures { result ≡ method_of text.now }
{
    if is_same(text, b"GET") {
        return Method::Get;
    }
    if is_same(text, b"HEAD") {
        return Method::Head;
    }
    if is_same(text, b"POST") {
        return Method::Post;
    }
    if is_same(text, b"PATCH") {
        return Method::Patch;
    }
    if is_same(text, b"PUT") {
        return Method::Put;
    }
    if is_same(text, b"DELETE") {
        return Method::Delete;
    }
    Method::Other
}

#[tactic(auto, unfolding(crate::specs::Heads::text_of))]
fn text_of(alloc: Global, bytes: &[u8]) -> Result<Text, Ending>
    ensures { Says (text_of bytes.now) result }
{
    match Text::read(alloc, bytes)? {
        Some(text) => Ok(text),
        None => Err(Ending::Bad(HttpCause::Malformed)),
    }
}

/// The token in the field of this name, which may come once.
#[tactic(auto, unfolding(crate::specs::Heads::token_of, crate::specs::Heads::behind))]
fn token(alloc: Global, fields: &Fields, name: &[u8]) -> Result<Option<Text>, Ending>
    ensures { Says (token_of (values_of name.now (named fields.now))) result }
{
    match fields.only(name) {
        Only::Absent => Ok(None),
        Only::Once(value) => Ok(Some(text_of(alloc, value)?)),
        Only::Repeated => Err(Ending::Bad(HttpCause::Malformed)),
    }
}

#[tactic(auto, unfolding(crate::specs::Heads::path_in))]
fn path_of(target: &[u8]) -> &[u8]
    ensures { result.now ≡ path_of target.now }
{
    match cut(target, b'?') {
        Some((path, _)) => path,
        None => target,
    }
}

#[tactic(auto, unfolding(crate::specs::Heads::query_in))]
fn query_of(target: &[u8]) -> &[u8]
    ensures { result.now ≡ query_of target.now }
{
    match cut(target, b'?') {
        Some((_, query)) => query,
        None => &[],
    }
}

#[tactic(auto, unfolding(crate::specs::Heads::path_text))]
fn path_text(alloc: Global, target: &[u8]) -> Result<Text, Ending>
    ensures { Says (path_text target.now) result }
{
    match target {
        [b'/', ..] => text_of(alloc, path_of(target)),
        _ => Err(Ending::Bad(HttpCause::Malformed)),
    }
}

impl RequestParts {
    ghost use Rattle.ks_http.specs.Heads.{said_of};
    ghost use Rattle.ks_http.specs.steps.Says.{Says, named};

    /// Reads what a head with this method, target and minor version says.
    #[tactic(auto, unfolding(crate::specs::Heads::behind))]
    pub fn read(
        alloc: Global,
        method: &[u8],
        target: &[u8],
        minor: u8,
        fields: &Fields,
    ) -> Result<RequestParts, Ending>
        ensures { Says (said_of method.now target.now minor (named fields.now)) result }
    {
        let path = path_text(alloc, target)?;
        let auth = token(alloc, fields, b"X-Auth-Token")?;
        let subject = token(alloc, fields, b"X-Subject-Token")?;
        let length = fields.body_length()?;
        let query = Bytes::of(alloc, query_of(target))?;
        Ok(RequestParts {
            method: method_of(method),
            path,
            query,
            auth,
            subject,
            length,
            close: fields.closes(minor),
        })
    }

    /// The request of this head and this body.
    pub fn with_body(self, body: Bytes) -> Request
        ensures { result ≡ record { method = self.method; path = self.path; query = self.query; auth = self.auth; subject = self.subject; body = body; close = self.close } }
    {
        let RequestParts {
            method,
            path,
            query,
            auth,
            subject,
            length: _,
            close,
        } = self;
        Request {
            method,
            path,
            query,
            auth,
            subject,
            body,
            close,
        }
    }
}
