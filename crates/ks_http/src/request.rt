ghost use Rattle.std.specs.Prelude.{◌≡◌};

use ks_base::{Bytes, Method, Text};

/// A request of HTTP/1.0 or HTTP/1.1 with its body.
pub struct Request {
    pub method: Method,
    /// The target before its first question mark.
    pub path: Text,
    /// The target behind its first question mark.
    pub query: Bytes,
    /// The value of `X-Auth-Token`.
    pub auth: Option<Text>,
    /// The value of `X-Subject-Token`.
    pub subject: Option<Text>,
    pub body: Bytes,
    /// No request may follow on this connection.
    pub close: bool,
}

impl Drop for Request {
    fn drop(self) {
        let Request {
            method: _,
            path: _,
            query: _,
            auth: _,
            subject: _,
            body: _,
            close: _,
        } = self;
    }
}

impl Request {
    /// The caller's token and the subject's.
    pub fn into_tokens(self) -> (Option<Text>, Option<Text>)
        ensures auth { result.0 ≡ self.auth }
        ensures subject { result.1 ≡ self.subject }
    {
        let Request {
            method: _,
            path: _,
            query: _,
            auth,
            subject,
            body: _,
            close: _,
        } = self;
        (auth, subject)
    }
}
