//! Responses whose heads are the usual one.

use anyhow::Result;
use std::alloc::Global;

/// The bytes of a response with this body and the usual head, of which its status and its own fields are given, with
/// semicolons between them.
pub fn usual_response(alloc: Global, own: &str, body: &[u8]) -> Result<Vec<u8>> {
    let mut head = String::from_str(alloc, "HTTP/1.1 ")?;
    for (at, line) in own.split("; ").enumerate() {
        head.push_str(line)?;
        head.push_str("\r\n")?;
        if at == 0 {
            push_usual(&mut head, body.len())?;
        }
    }
    head.push_str("\r\n")?;
    let mut bytes = head.into_bytes();
    bytes.extend_from_slice(body)?;
    Ok(bytes)
}

/// Adds the fields behind the status that all responses have: two of them only where there is a body.
fn push_usual(head: &mut String, length: usize) -> Result<()> {
    if length > 0 {
        write!(head, "Content-Length: {length}\r\n")?;
        head.push_str("Content-Type: application/json\r\n")?;
    }
    head.push_str("Vary: X-Auth-Token\r\n")?;
    Ok(())
}
