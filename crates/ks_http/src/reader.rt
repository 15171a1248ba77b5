ghost use Rattle.std.specs.Prelude.{◌≡◌};

use crate::buffer::Buffer;
use crate::ending::Ending;
use crate::next::Next;
use ks_base::Memory;
use ks_outside::Source;
use std::alloc::Global;
use std::marker::Model;

/// A reader of the requests of one connection. It keeps what follows a request for the next one.
#[derive(Drop)]
pub struct Reader {
    buffer: Buffer,
    over: Option<Ending>,
}

impl Model for Reader {
    ghost use Rattle.ks_http.specs.State.{ReaderState};

    ghost Value = { ReaderState };

    ghost view = { λ reader. record { held = reader.buffer; over = reader.over } };
}

impl Reader {
    ghost use Rattle.std.specs.Prelude.{◌≡◌, ◌++◌, ◌↔◌, ℕ, List, [], Some, None, IfOk, IsTrue};
    ghost use Rattle.ks_outside.specs.Streams.{OnlyReads};
    ghost use Rattle.ks_http.specs.Next.{Comes, IsUnfinished, ReadsNeeded, answer_of, ending_of, next_of};

    /// Before the first byte.
    pub fn new(alloc: Global) -> Result<Reader, Memory>
        ensures { IfOk result (λ made. made ≡ record { held = []; over = None }) }
    {
        Ok(Reader {
            buffer: Buffer::new(alloc)?,
            over: None,
        })
    }

    /// Whether no byte of a further request was read.
    pub fn holds_none(&self) -> bool
        ensures { IsTrue result ↔ (self.now.held ≡ []) }
    {
        self.buffer.is_empty()
    }

    /// Reads the next request, in as many pieces as it comes in. After an answer that is no request the
    /// reader reads no more, and answers the same for ever. Any call may find no memory.
    pub fn next_request<S: Source>(&mut self, alloc: Global, source: &mut S) -> Next
        ensures told { (left : List ℕ) → (S.stream source.old).left ≡ Some left → self.old.over ≡ None → Comes (self.old.held ++ left) self.new.held (S.stream source.new).left (answer_of result) }

        // At most a piece is read behind nothing or the beginning of a request.
        ensures needed { (left : List ℕ) → (S.stream source.old).left ≡ Some left → ReadsNeeded IsUnfinished (self.old.held ++ left) left (S.stream source.new).left }
        ensures reads { OnlyReads ((self.old.over ≡ None) × (result ≡ Next.ReadFault)) (S.stream source.old) (S.stream source.new) }
        ensures ending { self.old.over ≡ None → self.new.over ≡ ending_of result }

        // For ever the same, and nothing more is read.
        ensures over { (ending : Ending) → self.old.over ≡ Some ending → (result ≡ next_of ending) × (self.new ≡ self.old) × (source.new ≡ source.old) }
    {
        if let Some(ending) = self.over {
            return ending.next();
        }
        match self.buffer.request(alloc, source) {
            Ok(request) => Next::Request(request),
            Err(ending) => {
                self.over = Some(ending);
                ending.next()
            }
        }
    }
}
