use ks_base::{Memory, TryCopy};

/// Why bytes are no request.
#[derive(Clone, Copy)]
pub enum HttpCause {
    /// They neither begin with a head and its body nor are the beginning of them.
    Malformed,
    /// The body would come in chunks: there is a `Transfer-Encoding`.
    Chunked,
    /// The body would have more than 114,688 bytes.
    TooLarge,
    /// The head has more than 16,384 bytes or more than 64 fields.
    HeadTooLarge,
    /// The version is neither HTTP/1.0 nor HTTP/1.1.
    Version,
}

impl TryCopy for HttpCause {
    fn copy(&self) -> Result<HttpCause, Memory> {
        Ok(*self)
    }
}
