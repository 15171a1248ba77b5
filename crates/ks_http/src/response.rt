use crate::wording::ResponseFields;
use ks_base::Bytes;

/// A response of HTTP/1.1 (RFC 9112, section 4).
pub struct Response {
    /// The status code.
    pub status: u16,
    /// The fields behind `Content-Length`, in the order in which they are written.
    pub fields: ResponseFields,
    /// The body, whose length `Content-Length` gives. A 204 has neither.
    pub body: Bytes,
    /// The response answers HEAD: its fields are those of its body, which is not written.
    pub without_body: bool,
}

impl Drop for Response {
    fn drop(self) {
        let Response {
            status: _,
            fields: _,
            body: _,
            without_body: _,
        } = self;
    }
}
