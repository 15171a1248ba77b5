ghost use Rattle.std.specs.Prelude.{◌≤◌, IfOk, IfSome, length};

use crate::deadline::{Awaited, Deadline};
use crate::ending::Ending;
use crate::framing::looks_long;
use crate::limits::{CLOSING_BYTES, GATHER_MICROS, GATHERED_BYTES, PIECE, WAITING_BYTES};
use crate::queue::Queue;
use crate::registration::Registration;
use crate::socket::{read_now, write_now};
use ks_base::limits::HEAD_BYTES;
use ks_outside::Failed;
use mio::net::TcpStream;
use std::alloc::Global;
use std::net::{IpAddr, Shutdown};
use std::time::Instant;

/// What is at hand of a connection.
#[derive(Clone, Copy, PartialEq, Eq)]
pub enum AtHand {
    /// What looks like a whole request, or like all that is to come of one.
    Request,
    /// Less than that.
    Part,
    /// Nothing, and nothing more comes.
    End,
}

/// A connection with what came from its client and was not read yet, and with what was written and its client did not
/// take yet.
#[derive(Drop)]
pub struct Connection {
    alloc: Global,
    pub stream: TcpStream,
    /// The address of its client.
    pub client: IpAddr,
    pub registration: Registration,
    inbox: Queue,
    /// How long the request in front of the inbox looks, less what was read of it, once that is known.
    long: Option<usize>,
    /// What was given last ended a request, so that another one begins in front.
    is_between: bool,
    outbox: Queue,
    /// Since when responses are gathered in the outbox, if they are: so far the client was not asked to take them.
    gathered: Option<Instant>,
    /// All was read that had come, so that what comes next is reported.
    is_drained: bool,
    /// The client has closed its side, so that the end lies behind what came.
    has_closed: bool,
    /// The client sends no more, and all was read.
    has_ended: bool,
    /// Nothing is to be written behind the outbox.
    is_last: bool,
    /// How many bytes were passed over behind the last response.
    passed_over: usize,
    /// Since when it rests. It stays the same until a request of it is answered.
    pub rested: Instant,
    pub until: Deadline,
    /// What the waits for its client heard of the end.
    ending: Ending,
}

impl Connection {
    /// A connection of which nothing came yet.
    pub fn new(
        alloc: Global,
        stream: TcpStream,
        client: IpAddr,
        registration: Registration,
        now: Instant,
    ) -> Connection {
        Connection {
            alloc,
            stream,
            client,
            registration,
            inbox: Queue::new(alloc),
            long: None,
            is_between: false,
            outbox: Queue::new(alloc),
            gathered: None,
            is_drained: false,
            has_closed: false,
            has_ended: false,
            is_last: false,
            passed_over: 0,
            rested: now,
            until: Deadline::new(Awaited::Request, now),
            ending: Ending::new(),
        }
    }

    /// Something was reported of it, and whether its client has closed its side.
    pub fn hear(&mut self, has_closed: bool) {
        self.is_drained = false;
        self.has_closed |= has_closed;
    }

    /// Notes that bytes came, and whether these were fewer than there was room for, so that no more lie there. Where its client
    /// has closed its side, the end still lies behind them, and is not reported again.
    pub fn note_read(&mut self, is_short: bool) {
        self.is_drained = is_short && !self.has_closed;
    }

    /// Whether a whole request lies in the inbox.
    pub fn is_whole(&self) -> bool {
        match self.long {
            Some(long) => long <= self.inbox.len(),
            None => false,
        }
    }

    /// Whether a response waits for the client.
    pub fn has_waiting(&self) -> bool {
        !self.outbox.is_empty()
    }

    /// Whether a response waits that the client did not take at once.
    pub fn is_stuck(&self) -> bool {
        self.has_waiting() && self.gathered.is_none()
    }

    /// Whether a request or a response is under way.
    pub fn is_at_work(&self) -> bool {
        self.has_waiting() || !self.is_last && !self.inbox.is_empty()
    }

    /// Whether none is, and one may come.
    pub fn is_idle(&self) -> bool {
        !self.is_at_work() && !self.is_last
    }

    /// Whether the end has begun, and what is at work has had its time by now.
    pub fn is_over(&mut self, now: Instant) -> bool {
        let _begins = self.ending.look(self.alloc, now);
        self.ending.is_over(now, true)
    }

    /// What it waits for, where nothing can be done.
    fn awaited(&self) -> Awaited {
        if self.until.is_of(Awaited::End) {
            return Awaited::End;
        }
        if self.has_waiting() {
            return Awaited::Taking;
        }
        if self.inbox.is_empty() {
            return Awaited::Request;
        }
        if self.long.is_none() {
            return Awaited::Head;
        }
        Awaited::Body
    }

    /// It goes on to wait.
    pub fn wait_on(&mut self, now: Instant) {
        self.until = self.until.then(self.awaited(), now);
    }

    /// It rests behind an answer. What the client did not take then has its deadline already.
    pub fn rest(&mut self, now: Instant) {
        self.rested = now;
        let awaited = self.awaited();
        if !self.until.is_of(Awaited::Taking) || awaited != Awaited::Taking {
            self.until = Deadline::new(awaited, now);
        }
    }

    /// Nothing more is written to it, but for what waits for the client.
    pub fn end(&mut self) {
        self.is_last = true;
    }

    /// Does what can be done without waiting, and says what is then at hand: writes what waits for the client; behind
    /// the last response passes over what still comes; and else reads ahead.
    pub fn go_on(&mut self, now: Instant) -> Result<AtHand, Failed> {
        self.hand_out()?;
        if self.has_waiting() {
            return Ok(AtHand::Part);
        }
        if !self.is_last {
            return self.read_ahead();
        }
        if !self.until.is_of(Awaited::End) {
            self.shut(now)?;
        }
        self.pass_over()
    }

    /// Looks at the head behind so many bytes that came into the inbox, where they may end it.
    fn look_behind(&mut self, came: usize) {
        let bytes = self.inbox.as_slice();
        let before = bytes.len().saturating_sub(came);
        if bytes.split_at(before).1.contains(&b'\n') || bytes.len() >= HEAD_BYTES {
            self.look();
        }
    }

    /// Looks how long the request in front of the inbox is, where that is not known.
    fn look(&mut self) {
        if self.long.is_none() && !self.inbox.is_empty() {
            self.long = looks_long(self.inbox.as_slice());
        }
    }

    /// Reads ahead into the inbox until a whole request lies there, or nothing more is there. A connection that is known to be
    /// drained is not asked again: that call to the system would be one of four for a request.
    pub fn read_ahead(&mut self) -> Result<AtHand, Failed> {
        self.look();
        'pieces: for _ in 0..u64::MAX {
            if self.is_whole() {
                return Ok(AtHand::Request);
            }
            if self.has_ended {
                return Ok(self.at_end());
            }
            if self.is_drained {
                return Ok(AtHand::Part);
            }
            match self.inbox.read_from(&mut self.stream)? {
                Some(0) => self.has_ended = true,
                Some(count) => {
                    self.note_read(count < PIECE);
                    self.look_behind(count);
                }
                None => return Ok(AtHand::Part),
            }
        }
        Err(Failed)
    }

    /// What is at hand where nothing more comes: a part of a request is answered as well.
    fn at_end(&self) -> AtHand {
        if self.inbox.is_empty() {
            return AtHand::End;
        }
        AtHand::Request
    }

    /// Gives bytes of the request in front of the inbox, and none of a further one. There are none only where the inbox
    /// is empty.
    pub fn give(&mut self, into: &mut [u8]) -> usize
        ensures within { result ≤ length into.old }
    {
        let most = match self.long {
            Some(long) => long.min(into.len()),
            None => into.len(),
        };
        let waiting = self.inbox.as_slice();
        let count = most.min(waiting.len());
        into[..count].copy_from_slice(waiting.split_at(count).0);
        self.inbox.advance(count);
        self.is_between = self.long == Some(count);
        self.long = match self.long {
            Some(long) if count < long => Some(long - count),
            Some(_) | None => None,
        };
        count
    }

    /// Has as much of a response wait for the client as there is room for, which may be nothing.
    pub fn put_aside(&mut self, piece: &[u8]) -> usize
        ensures within { result ≤ length piece.now }
    {
        let room = WAITING_BYTES.saturating_sub(self.outbox.len());
        let count = room.min(piece.len());
        match self.outbox.push(piece.split_at(count).0) {
            Ok(()) => count,
            Err(_) => 0,
        }
    }

    /// Has a response wait for those of the requests behind it, where the next one has come whole already, and says how much
    /// of it waits. With the last of them, behind a millisecond, and before more than 16 KiB wait, all go to the client.
    pub fn gather(&mut self, piece: &[u8], now: Instant) -> Result<usize, Failed>
        ensures within { IfOk result (λ n. n ≤ length piece.now) }
    {
        let room = GATHERED_BYTES.saturating_sub(self.outbox.len());
        if self.is_stuck() || piece.len() > room {
            return Ok(0);
        }
        let since = self.gathered.unwrap_or(now);
        let aside = self.put_aside(piece);
        self.gathered = Some(since);
        if !self.has_further() || now.duration_since(since).as_micros() >= GATHER_MICROS {
            self.hand_out()?;
        }
        Ok(aside)
    }

    /// Whether behind the request that was given last a further one has come whole.
    fn has_further(&mut self) -> bool {
        self.look();
        self.is_between && self.is_whole()
    }

    /// Whether responses are gathered, or are to be from now on.
    pub fn gathers(&mut self) -> bool {
        self.gathered.is_some() || self.has_further()
    }

    /// Writes what waits for the client, as much as it takes.
    pub fn hand_out(&mut self) -> Result<(), Failed> {
        self.gathered = None;
        'pieces: for _ in 0..u64::MAX {
            if self.outbox.is_empty() {
                return Ok(());
            }
            match write_now(&mut self.stream, self.outbox.as_slice())? {
                Some(0) => return Err(Failed),
                Some(count) => self.outbox.advance(count),
                None => return Ok(()),
            }
        }
        Err(Failed)
    }

    /// Ends what is written (RFC 9112, section 9.6). A connection that is let go with bytes unread is reset, and the
    /// client might lose the response to a request that was refused before all of it came.
    fn shut(&mut self, now: Instant) -> Result<(), Failed> {
        match self.stream.shutdown(Shutdown::Write) {
            Ok(()) => {
                self.until = Deadline::new(Awaited::End, now);
                Ok(())
            }
            Err(_) => Err(Failed),
        }
    }

    /// Passes over what still comes.
    fn pass_over(&mut self) -> Result<AtHand, Failed> {
        let mut piece = [0; PIECE];
        'pieces: for _ in 0..u64::MAX {
            if self.passed_over >= CLOSING_BYTES {
                return Ok(AtHand::End);
            }
            match read_now(&mut self.stream, piece.as_mut_slice())? {
                Some(0) => return Ok(AtHand::End),
                Some(count) => self.passed_over = self.passed_over.saturating_add(count),
                None => return Ok(AtHand::Part),
            }
        }
        Err(Failed)
    }
}
