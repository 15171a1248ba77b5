ghost use Rattle.std.specs.Prelude.{◌≡◌, ◌<◌, ◌≤◌, ◌++◌, ◌==◌, ℕ, List, Some, length, is_ok, IsErr, IfOk, OnErr, if◌then◌else◌};
ghost use Rattle.ks_outside.specs.Counts.{next_count};
ghost use Rattle.ks_outside.specs.Streams.{OnlyReads, OnlyWrites, TookNone};
ghost use Rattle.ks_outside.specs.Real.{untold_stream};

use crate::connection::{AtHand, Connection};
use crate::deadline::Awaited;
use crate::limits::REQUESTS_AT_ONCE;
use crate::pool::Pool;
use ks_outside::{Failed, Sink, Source, Stream};
use std::marker::Model;
use std::rt::Clock;
use std::sync::Wait;

/// A link over a TCP connection that a pool has lent. It does not tell what came and what was written, and counts its
/// faults. The counts stand still at 2^64 - 1.
///
/// It comes with a request that looks whole. Where more of it is wanted a read waits until 30 seconds have gone since the
/// first byte. What the client does not take at once waits for it in the pool, up to 1 MiB; a write beyond that waits
/// until 30 seconds have gone since the client stopped taking the response.
#[derive(Drop)]
pub struct TcpLink<'a, R> {
    clock: &'a R,
    connection: Connection,
    /// How many requests were answered while a further one lay ready.
    answered: u32,
    /// It may be put aside until more comes.
    is_resting: bool,
    read_faults: u64,
    write_faults: u64,
}

impl<'a, R> Model for TcpLink<'a, R> {
    ghost use Rattle.ks_outside.specs.Real.{RealLinkState};

    ghost Value = { RealLinkState };

    ghost view = { λ l. record { reads = l.read_faults; writes = l.write_faults } };
}

impl<'a, R> TcpLink<'a, R> {
    /// A link over this connection, which has not failed yet.
    pub(crate) fn new(clock: &'a R, connection: Connection) -> TcpLink<'a, R>
        ensures { result ≡ record { reads = 0; writes = 0 } }
    {
        TcpLink {
            clock,
            connection,
            answered: 0,
            is_resting: false,
            read_faults: 0,
            write_faults: 0,
        }
    }
}

impl<R> TcpLink<'_, R> {
    /// Whether others are to have their turn, behind many answers or one that its client was slow to take.
    fn is_others_turn(&self) -> bool {
        self.answered >= REQUESTS_AT_ONCE || self.connection.until.is_of(Awaited::Taking)
    }

    /// Whether nothing more can be done for it, or others are to have their turn.
    fn may_rest(&mut self) -> bool
        ensures same { self.new ≡ self.old }
    {
        if self.connection.is_stuck() {
            return true;
        }
        match self.connection.read_ahead() {
            Ok(AtHand::Part) => self.connection.hand_out().is_ok(),
            Ok(AtHand::Request) => {
                self.answered = self.answered.saturating_add(1);
                self.connection.is_whole()
                    && self.is_others_turn()
                    && self.connection.hand_out().is_ok()
            }
            Ok(AtHand::End) | Err(Failed) => false,
        }
    }
}

impl<R: Clock + Wait> TcpLink<'_, R> {
    /// Gives the connection back to its pool, where it rests as one of this worker or is closed. One that failed is let go.
    pub(crate) fn give_back(self, pool: &Pool, worker: usize) {
        let TcpLink {
            clock,
            connection,
            answered: _,
            is_resting,
            read_faults,
            write_faults,
        } = self;
        if read_faults > 0 || write_faults > 0 {
            pool.let_go(clock, connection);
        } else if is_resting {
            pool.rest(clock, connection, worker);
        } else {
            pool.close(clock, connection);
        }
    }
}

impl<R> Stream for TcpLink<'_, R> {
    ghost stream = { untold_stream };
}

impl<R: Clock> Source for TcpLink<'_, R> {
    /// Reads from the connection. A read that a signal interrupted is tried again; every other error is a
    /// fault, and so is a read for which nothing came in time.
    fn read(&mut self, into: &mut [u8]) -> Result<usize, Failed>
        requires { 0 < length into.old }
        ensures within { IfOk result (λ n. n ≤ length into.old) }
        ensures reads { OnlyReads (IsErr result) (untold_stream self.old) (untold_stream self.new) }

        // The count rises at a fault alone.
        ensures exact { self.new ≡ record self.old { reads = (if is_ok result then self.old.reads else next_count self.old.reads) } }
    {
        self.is_resting = false;
        let answer = self.connection.read(self.clock, into);
        if answer.is_err() {
            self.read_faults = self.read_faults.saturating_add(1);
        }
        answer
    }

    /// Between two requests it may be put aside where no whole request lies ready, or where its client has not taken
    /// the response; and behind 16 requests that lay ready one behind the other, so that others have their turn.
    fn rests(&mut self) -> bool
        ensures exact { self.new ≡ self.old }
    {
        self.is_resting = self.may_rest();
        self.is_resting
    }
}

impl<R: Clock> Sink for TcpLink<'_, R> {
    /// Writes to the connection. A write that a signal interrupted is tried again; every other error is a
    /// fault, and so is a write that took nothing, or of which the client took nothing in time.
    fn write(&mut self, piece: &[u8]) -> Result<usize, Failed>
        requires { 0 < length piece.now }
        ensures within { IfOk result (λ n. n ≤ length piece.now) }
        ensures writes { OnlyWrites (TookNone result) (untold_stream self.old) (untold_stream self.new) }

        // The count rises at a fault alone.
        ensures ok { IfOk result (λ n. self.new ≡ record self.old { writes = (if n == 0 then next_count self.old.writes else self.old.writes) }) }
        ensures err { OnErr result (self.new ≡ record self.old { writes = next_count self.old.writes }) }
    {
        self.is_resting = false;
        match self.connection.write(self.clock, piece) {
            Ok(count) if count > 0 => Ok(count),
            answer => {
                self.write_faults = self.write_faults.saturating_add(1);
                answer
            }
        }
    }
}
