//! Requests of HTTP/1.1 (RFC 9112) out of a stream of bytes, the same for every cutting of the stream, and
//! responses into one.
#![tactic(auto)]

mod backlog;
mod buffer;
mod cause;
mod ending;
mod fields;
mod lines;
mod look;
mod next;
mod outgoing;
mod parts;
mod reader;
mod request;
mod response;
mod scan;
mod status;
mod values;
mod wording;
mod write_fault;
mod writer;

pub use cause::HttpCause;
pub use next::Next;
pub use reader::Reader;
pub use request::Request;
pub use response::Response;
pub use status::reason;
pub use wording::{ResponseFields, Wording};
pub use write_fault::WriteFault;
pub use writer::{write_memory, write_response};
