use crate::cause::HttpCause;
use crate::request::Request;

/// What comes next out of a stream of requests.
#[derive(Drop)]
pub enum Next {
    /// A request.
    Request(Request),
    /// Nothing: the input ended between requests.
    End,
    /// Bytes that are no request.
    Bad(HttpCause),
    /// The input could not be read.
    ReadFault,
    /// There was no memory.
    Memory,
}
