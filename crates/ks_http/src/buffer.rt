ghost use Rattle.std.specs.Prelude.{◌≡◌};

use crate::backlog::Backlog;
use crate::cause::HttpCause;
use crate::ending::Ending;
use crate::fields::Fields;
use crate::look::{Look, look_for_head};
use crate::parts::RequestParts;
use crate::request::Request;
use httparse::spans::{EMPTY_HEADER_SPAN, HeaderSpan, RequestSpans};
use ks_base::limits::{HEAD_BYTES, HEAD_FIELDS};
use ks_base::{Bytes, Memory};
use ks_outside::Source;
use std::alloc::Global;
use std::marker::Model;

/// How many bytes are read at once.
pub const PIECE_BYTES: usize = 4_096;

/// The bytes that were read and belong to no request yet.
#[derive(Drop)]
pub struct Buffer {
    bytes: Backlog,
}

impl Model for Buffer {
    ghost use Rattle.std.specs.Prelude.{ℕ, List};

    ghost Value = { List ℕ };

    ghost view = { λ buffer. buffer.bytes };
}

impl Buffer {
    ghost use Rattle.std.specs.Prelude.{◌≡◌, ◌≢◌, ◌+◌, ◌<◌, ◌≤◌, ◌++◌, ℕ, List, [], Some, length, take, drop, IfOk, OnOk, OnErr, IsErrOf, IsTrue, ◌↔◌, All, ◌==◌, false};
    ghost use Rattle.httparse.specs.Grammar.{RequestHead};
    ghost use Rattle.httparse.specs.Spans.{IsRequestWithin, IsRequestAt};
    ghost use Rattle.ks_base.specs.declared.limits.TheConstants.{HEAD_BYTES};
    ghost use Rattle.ks_outside.specs.Streams.{OnlyReads};
    ghost use Rattle.ks_http.specs.steps.Buffers.{Fills, FillsTo, IsShorter, IsUndecided, Looks, Glances, FindsWithin, FindsHead, OpensAt, ReadsPiece, TakesBody};
    ghost use Rattle.ks_http.specs.Heads.{parts_of};
    ghost use Rattle.ks_http.specs.steps.Says.{Says};
    ghost use Rattle.ks_http.specs.Next.{Ends, Comes, IsUnfinished, ReadsNeeded};

    /// Before the first byte.
    pub fn new(alloc: Global) -> Result<Buffer, Memory>
        ensures { IfOk result (λ made. made ≡ []) }
    {
        Ok(Buffer {
            bytes: Backlog::with_capacity(alloc, PIECE_BYTES)?,
        })
    }

    /// Whether no byte is in hand.
    pub fn is_empty(&self) -> bool
        ensures { IsTrue result ↔ (self.now ≡ []) }
    {
        self.bytes.is_empty()
    }

    /// The bytes that a head may stand in.
    fn window(&self) -> &[u8]
        ensures window { result.now ≡ take HEAD_BYTES self.now }
        ensures short { length result.now ≤ HEAD_BYTES }
    {
        let bytes = self.bytes.as_slice();
        bytes.split_at(HEAD_BYTES.min(bytes.len())).0
    }

    /// Reads a piece behind the bytes in hand, and says how many bytes came.
    fn fill<S: Source>(&mut self, source: &mut S) -> Result<usize, Ending>
        ensures told { (left : List ℕ) → (S.stream source.old).left ≡ Some left → Fills self.old left self.new (S.stream source.new).left result }
        ensures piece { (left : List ℕ) → (S.stream source.old).left ≡ Some left → ReadsPiece left (S.stream source.new).left }
        ensures longer { IfOk result (λ count. length self.new ≡ length self.old + count) }
        ensures kept { IfOk result (λ _. take (length self.old) self.new ≡ self.old) }
        ensures reads { OnlyReads (IsErrOf result Ending.ReadFault) (S.stream source.old) (S.stream source.new) }
    {
        let mut piece = [0; PIECE_BYTES];
        let Ok(count) = source.read(piece.as_mut_slice()) else {
            return Err(Ending::ReadFault);
        };
        let came = piece.as_slice().split_at(count).0;
        self.bytes.push(came)?;
        Ok(count)
    }

    /// The ending behind the last byte of the input, where no head has come.
    fn ending(&self) -> Ending
        requires { IsUndecided self.now }
        ensures ends { Ends self.now (Some []) result }
        ensures fault { result ≢ Ending.ReadFault }
    {
        if self.bytes.is_empty() {
            return Ending::End;
        }
        Ending::Bad(HttpCause::Malformed)
    }

    /// Looks for a head at the front of the bytes in hand.
    fn look(&self, headers: &mut [HeaderSpan; HEAD_FIELDS]) -> Look
        ensures looks { Looks self.now headers.new result }
        ensures within { FindsWithin (take HEAD_BYTES self.now) headers.new result }
    {
        look_for_head(self.window(), headers)
    }

    /// Whether a look can find a head or a refusal that was not there when there were so many bytes.
    fn is_worth_a_look(&self, before: usize) -> bool
        ensures short { result ≡ false → length self.now < HEAD_BYTES }
        ensures clear { result ≡ false → All (λ b. (b == 10) ≡ false) (drop before self.now) }
    {
        let window = self.window();
        if window.len() == HEAD_BYTES {
            return true;
        }
        let fresh = window.split_at(before.min(window.len())).1;
        fresh.contains(&b'\n')
    }

    /// Looks where a look is worth it.
    fn glance(&self, before: usize, headers: &mut [HeaderSpan; HEAD_FIELDS]) -> Look
        ensures glances { Glances self.now before headers.new result }
        ensures within { FindsWithin (take HEAD_BYTES self.now) headers.new result }
    {
        if self.is_worth_a_look(before) {
            return self.look(headers);
        }
        Look::More
    }

    /// The head in the bytes behind which the input ended.
    fn last_head(&self, headers: &mut [HeaderSpan; HEAD_FIELDS]) -> Result<RequestSpans, Ending>
        ensures told { FindsHead self.now self.now (Some []) headers.new result }
        ensures within { IfOk result (λ head. IsRequestWithin (take HEAD_BYTES self.now) headers.new head) }
        ensures fault { ¬ (IsErrOf result Ending.ReadFault) }
    {
        match self.look(headers) {
            Look::Whole(head) => Ok(head),
            Look::Refused(cause) => Err(Ending::Bad(cause)),
            Look::More => Err(self.ending()),
        }
    }

    /// Reads until a head has come or none can come.
    fn head<S: Source>(
        &mut self,
        source: &mut S,
        headers: &mut [HeaderSpan; HEAD_FIELDS],
    ) -> Result<RequestSpans, Ending>
        ensures told { (left : List ℕ) → (S.stream source.old).left ≡ Some left → FindsHead (self.old ++ left) self.new (S.stream source.new).left headers.new result }
        ensures needed { (left : List ℕ) → (S.stream source.old).left ≡ Some left → ReadsNeeded IsUnfinished (self.old ++ left) left (S.stream source.new).left }
        ensures within { IfOk result (λ head. IsRequestWithin (take HEAD_BYTES self.new) headers.new head) }
        ensures reads { OnlyReads (IsErrOf result Ending.ReadFault) (S.stream source.old) (S.stream source.new) }
    {
        let mut before = 0;
        'looks: loop {
            match self.glance(before, headers) {
                Look::Whole(head) => return Ok(head),
                Look::Refused(cause) => return Err(Ending::Bad(cause)),
                Look::More => {}
            }
            before = self.bytes.len();
            let count = self.fill(source)?;
            if count == 0 {
                return self.last_head(headers);
            }
        }
    }

    /// Reads until there are so many bytes in hand.
    fn fill_to<S: Source>(&mut self, source: &mut S, size: usize) -> Result<(), Ending>
        ensures told { (left : List ℕ) → (S.stream source.old).left ≡ Some left → FillsTo (self.old ++ left) size self.new (S.stream source.new).left result }
        ensures needed { (left : List ℕ) → (S.stream source.old).left ≡ Some left → ReadsNeeded (IsShorter size) (self.old ++ left) left (S.stream source.new).left }
        ensures enough { OnOk result (size ≤ length self.new) }
        ensures reads { OnlyReads (IsErrOf result Ending.ReadFault) (S.stream source.old) (S.stream source.new) }
    {
        'fills: while self.bytes.len() < size {
            let count = self.fill(source)?;
            if count == 0 {
                return Err(Ending::Bad(HttpCause::Malformed));
            }
        }
        Ok(())
    }

    /// Reads the body of so many bytes.
    fn body<S: Source>(
        &mut self,
        alloc: Global,
        source: &mut S,
        size: usize,
    ) -> Result<Bytes, Ending>
        ensures told { (left : List ℕ) → (S.stream source.old).left ≡ Some left → TakesBody (self.old ++ left) size self.new (S.stream source.new).left result }
        ensures needed { (left : List ℕ) → (S.stream source.old).left ≡ Some left → ReadsNeeded (IsShorter size) (self.old ++ left) left (S.stream source.new).left }
        ensures reads { OnlyReads (IsErrOf result Ending.ReadFault) (S.stream source.old) (S.stream source.new) }
    {
        self.fill_to(source, size)?;
        let body = Bytes::of(alloc, self.bytes.as_slice().split_at(size).0)?;
        self.bytes.advance(size);
        Ok(body)
    }

    /// What the head with these spans says.
    fn said(
        &self,
        alloc: Global,
        head: RequestSpans,
        headers: &[HeaderSpan; HEAD_FIELDS],
    ) -> Result<RequestParts, Ending>
        requires { IsRequestWithin (take HEAD_BYTES self.now) headers.now head }
        ensures says { (h : RequestHead) → IsRequestAt (take HEAD_BYTES self.now) headers.now head h → Says (parts_of h) result }
        ensures fault { ¬ (IsErrOf result Ending.ReadFault) }
    {
        let bytes = self.window();
        let fields = Fields {
            bytes,
            spans: headers.as_slice().split_at(head.headers).0,
        };
        let method = head.method.of(bytes);
        let target = head.path.of(bytes);
        RequestParts::read(alloc, method, target, head.version, &fields)
    }

    /// Reads the head of the first request.
    fn parts<S: Source>(&mut self, alloc: Global, source: &mut S) -> Result<RequestParts, Ending>
        ensures told { (left : List ℕ) → (S.stream source.old).left ≡ Some left → OpensAt (self.old ++ left) self.new (S.stream source.new).left result }
        ensures needed { (left : List ℕ) → (S.stream source.old).left ≡ Some left → ReadsNeeded IsUnfinished (self.old ++ left) left (S.stream source.new).left }
        ensures reads { OnlyReads (IsErrOf result Ending.ReadFault) (S.stream source.old) (S.stream source.new) }
    {
        let mut headers = [EMPTY_HEADER_SPAN; HEAD_FIELDS];
        let head = self.head(source, &mut headers)?;
        let parts = self.said(alloc, head, &headers)?;
        self.bytes.advance(head.len);
        Ok(parts)
    }

    /// Reads the first request of the bytes in hand and of those that the source has left.
    pub fn request<S: Source>(&mut self, alloc: Global, source: &mut S) -> Result<Request, Ending>
        ensures told { (left : List ℕ) → (S.stream source.old).left ≡ Some left → Comes (self.old ++ left) self.new (S.stream source.new).left result }
        ensures needed { (left : List ℕ) → (S.stream source.old).left ≡ Some left → ReadsNeeded IsUnfinished (self.old ++ left) left (S.stream source.new).left }
        ensures reads { OnlyReads (IsErrOf result Ending.ReadFault) (S.stream source.old) (S.stream source.new) }
    {
        let parts = self.parts(alloc, source)?;
        let body = self.body(alloc, source, parts.length)?;
        Ok(parts.with_body(body))
    }
}
