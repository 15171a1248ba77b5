ghost use Rattle.std.specs.Prelude.{◌≡◌};

use crate::response::Response;
use crate::status::reason;
use crate::wording::Wording;
use arrayvec::ArrayVec;
use ks_outside::{Failed, Sink, write_all};
use std::marker::Model;

/// How many bytes are held back before they are written.
const HELD: usize = 4_096;

/// The bytes of a response that are not written yet. They lie on the stack.
#[derive(Drop)]
pub struct Outgoing {
    held: ArrayVec<u8, HELD>,
}

impl Model for Outgoing {
    ghost use Rattle.std.specs.Prelude.{ℕ, List};

    ghost Value = { List ℕ };

    ghost view = { λ outgoing. outgoing.held.items };
}

impl Outgoing {
    ghost use Rattle.std.specs.Prelude.{◌≡◌, ◌+◌, ◌≤◌, [], length, flat_map, IsErr};
    ghost use Rattle.ks_outside.specs.Streams.{OnlyWrites};
    ghost use Rattle.ks_http.specs.Responses.{status_line, length_line, field_line, field_lines, head_of};
    ghost use Rattle.ks_http.specs.steps.Writes.{Puts};

    /// Before the first byte.
    pub fn new() -> Outgoing
        ensures { result ≡ [] }
    {
        Outgoing {
            held: ArrayVec::new(),
        }
    }

    /// The bytes that are held.
    pub fn as_slice(&self) -> &[u8]
        ensures { result.now ≡ self.now }
    {
        self.held.as_slice()
    }

    /// Puts these bytes behind those that are held.
    #[inline]
    pub fn put<K: Sink>(&mut self, sink: &mut K, bytes: &[u8]) -> Result<(), Failed>
        ensures told { Puts self.old bytes.now self.new (K.stream sink.old).written (K.stream sink.new).written result }
        ensures writes { OnlyWrites (IsErr result) (K.stream sink.old) (K.stream sink.new) }
    {
        if self.held.try_extend_from_slice(bytes).is_ok() {
            return Ok(());
        }
        self.put_long(sink, bytes)
    }

    /// Puts bytes for which there is no room: writes as many as can be held, and then the rest, or
    /// holds it.
    #[inline(never)]
    fn put_long<K: Sink>(&mut self, sink: &mut K, bytes: &[u8]) -> Result<(), Failed>
        requires { HELD ≤ length self.old + length bytes.now }
        ensures told { Puts self.old bytes.now self.new (K.stream sink.old).written (K.stream sink.new).written result }
        ensures writes { OnlyWrites (IsErr result) (K.stream sink.old) (K.stream sink.new) }
    {
        let (front, rest) = bytes.split_at(self.held.remaining_capacity());
        let Ok(()) = self.held.try_extend_from_slice(front) else {
            unreachable!();
        };
        write_all(sink, self.held.as_slice())?;
        self.held.clear();
        if self.held.try_extend_from_slice(rest).is_ok() {
            return Ok(());
        }
        write_all(sink, rest)
    }

    /// Puts these pieces, one behind the other.
    fn put_all<K: Sink>(&mut self, sink: &mut K, pieces: &[&[u8]]) -> Result<(), Failed>
        ensures told { Puts self.old (flat_map (λ piece. piece.now) pieces.now) self.new (K.stream sink.old).written (K.stream sink.new).written result }
        ensures writes { OnlyWrites (IsErr result) (K.stream sink.old) (K.stream sink.new) }
    {
        for piece in pieces {
            self.put(sink, piece)?;
        }
        Ok(())
    }

    /// Puts the status line (RFC 9112, section 4).
    fn put_status<K: Sink>(&mut self, sink: &mut K, status: u16) -> Result<(), Failed>
        ensures told { Puts self.old (status_line status) self.new (K.stream sink.old).written (K.stream sink.new).written result }
        ensures writes { OnlyWrites (IsErr result) (K.stream sink.old) (K.stream sink.new) }
    {
        let mut digits = itoa::Buffer::new();
        self.put_all(
            sink,
            &[
                b"HTTP/1.1 ".as_slice(),
                digits.format(status).as_bytes(),
                b" ".as_slice(),
                reason(status).as_bytes(),
                b"\r\n".as_slice(),
            ],
        )
    }

    /// Puts a field line (RFC 9112, section 5).
    fn put_field<K: Sink>(&mut self, sink: &mut K, name: &[u8], value: &[u8]) -> Result<(), Failed>
        ensures told { Puts self.old (field_line (name.now, value.now)) self.new (K.stream sink.old).written (K.stream sink.new).written result }
        ensures writes { OnlyWrites (IsErr result) (K.stream sink.old) (K.stream sink.new) }
    {
        self.put_all(sink, &[name, b": ".as_slice(), value, b"\r\n".as_slice()])
    }

    /// Puts the field of the body's length, which a 204 does not have (RFC 9110, section 8.6).
    #[tactic(auto, unfolding(crate::specs::Responses::length_line))]
    fn put_length<K: Sink>(&mut self, sink: &mut K, status: u16, body: &[u8]) -> Result<(), Failed>
        ensures told { Puts self.old (length_line status body.now) self.new (K.stream sink.old).written (K.stream sink.new).written result }
        ensures writes { OnlyWrites (IsErr result) (K.stream sink.old) (K.stream sink.new) }
    {
        if status == 204 {
            return Ok(());
        }
        let mut digits = itoa::Buffer::new();
        self.put_field(
            sink,
            b"Content-Length",
            digits.format(body.len()).as_bytes(),
        )
    }

    fn put_fields<K: Sink>(
        &mut self,
        sink: &mut K,
        fields: &[(Wording, Wording)],
    ) -> Result<(), Failed>
        ensures told { Puts self.old (field_lines fields.now) self.new (K.stream sink.old).written (K.stream sink.new).written result }
        ensures writes { OnlyWrites (IsErr result) (K.stream sink.old) (K.stream sink.new) }
    {
        for (name, value) in fields {
            self.put_field(sink, name.as_slice(), value.as_slice())?;
        }
        Ok(())
    }

    /// Puts what stands before the body.
    pub fn put_head<K: Sink>(&mut self, sink: &mut K, response: &Response) -> Result<(), Failed>
        ensures told { Puts self.old (head_of response.now) self.new (K.stream sink.old).written (K.stream sink.new).written result }
        ensures writes { OnlyWrites (IsErr result) (K.stream sink.old) (K.stream sink.new) }
    {
        self.put_status(sink, response.status)?;
        self.put_length(sink, response.status, response.body.as_slice())?;
        self.put_fields(sink, response.fields.as_slice())?;
        self.put(sink, b"\r\n")
    }
}
