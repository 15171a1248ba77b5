ghost use Rattle.std.specs.Prelude.{◌≡◌, IsErr, codes};
ghost use Rattle.ks_outside.specs.Streams.{OnlyWrites, Wrote};
ghost use Rattle.ks_http.specs.Responses.{content, message, memory_response};

use crate::outgoing::Outgoing;
use crate::response::Response;
use crate::write_fault::WriteFault;
use ks_outside::{Sink, write_all};

const MEMORY_RESPONSE: &[u8] = b"HTTP/1.1 503 Service Unavailable\r\n\
    Content-Length: 79\r\n\
    Content-Type: application/json\r\n\
    Vary: X-Auth-Token\r\n\
    Connection: close\r\n\
    \r\n\
    {\"error\":{\"code\":503,\"message\":\"Out of memory.\",\"title\":\"Service Unavailable\"}}";

#[tactic(auto, unfolding(crate::specs::Responses::content))]
fn content(response: &Response) -> &[u8]
    ensures { result.now ≡ content response.now }
{
    if response.status == 204 || response.without_body {
        return &[];
    }
    response.body.as_slice()
}

/// Writes a response (RFC 9112, sections 4 to 6), and takes no memory. One of at most 4,096 bytes is
/// given to the sink as one piece, and one with a longer body as two. The fields are written as they
/// are, so that they must hold no line end. After a fault a front of the response was written, and
/// nothing may follow over the same connection.
pub fn write_response<K: Sink>(sink: &mut K, response: &Response) -> Result<(), WriteFault>
    ensures told { Wrote (message response.now) (K.stream sink.old).written (K.stream sink.new).written result }
    ensures writes { OnlyWrites (IsErr result) (K.stream sink.old) (K.stream sink.new) }
{
    let mut outgoing = Outgoing::new();
    outgoing.put_head(sink, response)?;
    outgoing.put(sink, content(response))?;
    write_all(sink, outgoing.as_slice())?;
    Ok(())
}

/// Writes the response for want of memory, which ends the connection, and takes none itself. After a
/// fault a front of it was written.
pub fn write_memory<K: Sink>(sink: &mut K) -> Result<(), WriteFault>
    ensures told { Wrote memory_response (K.stream sink.old).written (K.stream sink.new).written result }
    ensures writes { OnlyWrites (IsErr result) (K.stream sink.old) (K.stream sink.new) }
{
    write_all(sink, MEMORY_RESPONSE)?;
    Ok(())
}
