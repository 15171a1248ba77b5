use crate::clock::WatchedClock;
use crate::connection::{AtHand, Connection};
use crate::limits::{ACCEPTS, CONNECTIONS, END_SECONDS, SPARE_DESCRIPTORS, WORKER_DESCRIPTORS};
use crate::line::{Line, Seen};
use crate::log::Log;
use crate::poller::{LISTENER, Pollers, Report};
use crate::slots::{Slots, Step};
use crate::trouble::Refusal;
use crate::waiters::Turn;
use ks_outside::{Answered, Failed};
use libc::RLIMIT_NOFILE;
use libc::net::{SHUT_RD, shutdown};
use libc::types::rlimit;
use mio::Interest;
use mio::net::{TcpListener, TcpStream};
use mio::unix::SourceFd;
use std::io;
use std::net::{IpAddr, Net};
use std::os::fd::AsRawFd;
use std::rt::Clock;
use std::sync::{Mutex, Wait};
use std::time::Instant;

/// The connections of one listener, which all its desks share. A connection rests here while nothing can be done for it,
/// and a worker is lent it once a request of it looks whole, or once no more of it comes. So thousands of connections
/// need a worker only while it answers them.
///
/// Each connection is reported to the worker that it had last, at first to each in turn. So where they all have something to do no worker
/// waits for another. What comes for a worker that is busy others take, within some milliseconds, and with it the
/// connection.
///
/// It keeps as many connections as the process may have descriptors, less 64 and three for each worker, and at most 10,000. A further one takes the
/// place of the one that has rested longest. A connection is let go that sends no byte of its next request for 60
/// seconds, no whole head within 10 seconds or no whole request within 30 seconds of the first byte, or that does not
/// take a whole response within 30 seconds. Behind the last response it may send for 2 seconds, and 1 MiB, which are
/// passed over.
///
/// Where a signal asks the process to end, it accepts no more connections. Requests and responses that are under way then
/// have 5 seconds, and behind its response a connection is let go; once none is left no more links come.
#[derive(Drop)]
pub struct Pool {
    listener: TcpListener,
    pollers: Pollers,
    slots: Mutex<Slots>,
    clock: Mutex<WatchedClock>,
    log: Option<Log>,
}

/// How many connections are kept at most beside so many workers.
fn most_connections(workers: u32) -> usize {
    let mut limit = rlimit {
        rlim_cur: 0,
        rlim_max: 0,
    };
    if libc::getrlimit(RLIMIT_NOFILE, &mut limit) != 0 {
        return CONNECTIONS;
    }
    let spare = u64::from(workers)
        .saturating_mul(WORKER_DESCRIPTORS)
        .saturating_add(SPARE_DESCRIPTORS);
    let kept = limit.rlim_cur.saturating_sub(spare).max(1);
    usize::try_from(kept)
        .unwrap_or(CONNECTIONS)
        .min(CONNECTIONS)
}

/// How many microseconds are gone since then, as far as that is known.
fn micros_since<R: Clock>(rt: &R, began: Option<Instant>) -> u128 {
    match (began, Instant::now(rt)) {
        (Some(began), Ok(now)) => now.duration_since(began).as_micros(),
        (Some(_) | None, _) => 0,
    }
}

impl Pool {
    /// A pool for so many workers of the connections that come to this listener. Their requests are told in the log, if
    /// there is one.
    pub fn new<R: Net + Clock + AllocGlobal>(
        rt: &R,
        listener: TcpListener,
        workers: u32,
        log: Option<Log>,
    ) -> io::Result<Pool> {
        let pollers = Pollers::new(rt, workers)?;
        let descriptor = listener.as_raw_fd();
        let mut source = SourceFd(&descriptor);
        let registry = pollers.of(0).registry();
        registry.register(&mut source, LISTENER, Interest::READABLE)?;
        let count = pollers.len();
        let now = Instant::now(rt)?;
        Ok(Pool {
            listener,
            pollers,
            slots: Mutex::new(Slots::new(rt.alloc(), most_connections(workers), count, now)?),
            clock: Mutex::new(WatchedClock::new()),
            log,
        })
    }

    /// Whether requests are told in a log.
    pub fn logs(&self) -> bool {
        self.log.is_some()
    }

    /// Tells a request of this client in the log, if there is one. The worker of this number answered it, and began then.
    pub fn tell<R: Clock + Wait + Eprint>(
        &self,
        rt: &R,
        worker: u32,
        client: Option<IpAddr>,
        began: Option<Instant>,
        answered: &Answered,
    ) {
        if let Some(log) = &self.log {
            let seen = Seen {
                moment: self.reading(rt).unwrap_or(0),
                client,
                worker,
                micros: micros_since(rt, began),
            };
            log.write(rt, Line { seen, answered });
        }
    }

    /// Has this line said on the standard error before the first connection is waited for.
    pub fn say_first<R: Wait>(&self, rt: &R, line: String) {
        self.slots.lock(rt).first_line = Some(line);
    }

    /// The clock that all desks share, in seconds since 1970, where it can be read. What becomes of it is said once.
    pub fn reading<R: Clock + Wait + Eprint>(&self, rt: &R) -> Option<u64> {
        let reading = self.clock.lock(rt).read(rt)?;
        reading.tell(rt);
        Some(reading.seconds)
    }

    /// The next connection for this worker of which a request looks whole. There is none where a signal asked the process to
    /// end, and nothing is left at work that could still be answered.
    pub fn next<R: Clock + Wait + Eprint>(
        &self,
        rt: &R,
        worker: usize,
    ) -> Result<Option<Connection>, Failed> {
        'reports: for _ in rt.forever() {
            let report = self.wait(rt, worker)?;
            let Ok(now) = Instant::now(rt) else {
                return Err(Failed);
            };
            match self.step(rt, worker, report, now)? {
                Step::End => return Ok(None),
                Step::Accept => self.accept_all(rt, now)?,
                Step::Serve(connection, woken) => {
                    if let Some(woken) = woken {
                        self.pollers.of(woken).wake();
                    }
                    if let Some(connection) = self.sort(rt, connection, now) {
                        return Ok(Some(connection));
                    }
                }
                Step::Sweep | Step::Wait => {}
            }
        }
        unreachable!()
    }

    /// Waits for a report of a connection of this worker, or of one of a worker that is busy.
    fn wait<R: Wait + Eprint>(&self, rt: &R, worker: usize) -> Result<Report, Failed> {
        let turn = self.begin_wait(rt, worker);
        if turn.looks_first {
            let report = self.pollers.look_at_others(worker)?;
            if report != Report::Nothing {
                return Ok(report);
            }
        }
        match self.pollers.of(worker).wait(rt, turn.most)? {
            Report::Nothing => self.pollers.look_at_others(worker),
            report => Ok(report),
        }
    }

    fn begin_wait<R: Wait + Eprint>(&self, rt: &R, worker: usize) -> Turn {
        let mut slots = self.slots.lock(rt);
        if let Some(line) = slots.first_line.take() {
            let _ = eprintln!(rt; "{line}");
        }
        slots.begin_wait(worker)
    }

    /// What a worker is to do behind this report, with what is done each second before it.
    fn step<R: Wait + Eprint>(
        &self,
        rt: &R,
        worker: usize,
        report: Report,
        now: Instant,
    ) -> Result<Step, Failed> {
        let step = self.slots.lock(rt).step(worker, report, now);
        if let Step::Sweep = step {
            self.sweep(rt, now)?;
            return Ok(self.slots.lock(rt).step(worker, report, now));
        }
        Ok(step)
    }

    /// A connection again, if a request of it is at hand. Else it rests, or is let go.
    fn sort<R: Wait>(
        &self,
        rt: &R,
        mut connection: Connection,
        now: Instant,
    ) -> Option<Connection> {
        match connection.go_on(now) {
            Ok(AtHand::Request) => return Some(connection),
            Ok(AtHand::Part) => {
                connection.wait_on(now);
                let worker = connection.registration.worker;
                self.slots.lock(rt).put(&self.pollers, connection, worker);
            }
            Ok(AtHand::End) | Err(Failed) => self.let_go(rt, connection),
        }
        None
    }

    /// Takes back a connection of which the next request is to come, and which then is this worker's.
    pub fn rest<R: Clock + Wait>(&self, rt: &R, mut connection: Connection, worker: usize) {
        match Instant::now(rt) {
            Ok(now) => {
                connection.rest(now);
                self.slots.lock(rt).put(&self.pollers, connection, worker);
            }
            Err(_) => self.let_go(rt, connection),
        }
    }

    /// Takes back a connection of which no more is answered. It is let go once its client has taken what waits for it,
    /// and has closed its side.
    pub fn close<R: Clock + Wait>(&self, rt: &R, mut connection: Connection) {
        connection.end();
        match Instant::now(rt) {
            Ok(now) => drop(self.sort(rt, connection, now)),
            Err(_) => self.let_go(rt, connection),
        }
    }

    /// Lets a connection go.
    pub fn let_go<R: Wait>(&self, rt: &R, connection: Connection) {
        let key = connection.registration.key;
        drop(connection);
        self.slots.lock(rt).forget(key);
    }

    /// Accepts the connections that wait, a number of them at most before others are served, and none once the end has
    /// begun.
    fn accept_all<R: Wait + Eprint>(&self, rt: &R, now: Instant) -> Result<(), Failed> {
        if self.slots.lock(rt).is_ending() {
            return Ok(());
        }
        let mut has_made_room = false;
        'connections: for _ in 0..ACCEPTS {
            match self.listener.accept() {
                Ok((stream, address)) => {
                    has_made_room = false;
                    self.admit(rt, stream, address.ip(), now);
                }
                Err(error) => match Refusal::of(&error) {
                    Refusal::OneConnection => {}
                    Refusal::Nobody => return Ok(()),
                    Refusal::Listener => return Err(Failed),
                    Refusal::Passing => {
                        if has_made_room || !self.make_room(rt, &error, now) {
                            return Ok(());
                        }
                        has_made_room = true;
                    }
                },
            }
        }
        self.ask_for_more()
    }

    /// Has the listener reported again, if connections wait there.
    fn ask_for_more(&self) -> Result<(), Failed> {
        let descriptor = self.listener.as_raw_fd();
        let mut source = SourceFd(&descriptor);
        let registry = self.pollers.of(0).registry();
        match registry.reregister(&mut source, LISTENER, Interest::READABLE) {
            Ok(()) => Ok(()),
            Err(_) => Err(Failed),
        }
    }

    /// Takes in a connection, which then sends each piece at once. One that does not take this setting is let go.
    fn admit<R: Wait>(&self, rt: &R, stream: TcpStream, client: IpAddr, now: Instant) {
        if stream.set_nodelay(true).is_err() {
            return;
        }
        let mut slots = self.slots.lock(rt);
        slots.trouble.accept();
        slots.admit(&self.pollers, stream, client, now);
    }

    /// Lets the connection go that has rested longest, where none can be accepted, and says whether one went.
    fn make_room<R: Wait + Eprint>(&self, rt: &R, error: &io::Error, now: Instant) -> bool {
        let mut slots = self.slots.lock(rt);
        if slots.trouble.meet(now) {
            let _ = eprintln!(rt; "ks: no connection can be accepted for now: {error}");
        }
        slots.make_room(now)
    }

    /// Lets the connections go whose time is over, looks for a signal that asks for the end, and has the listener reported
    /// again, of which accepts may have failed.
    fn sweep<R: Wait + Eprint>(&self, rt: &R, now: Instant) -> Result<(), Failed> {
        if self.sweep_slots(rt, now) {
            return Ok(());
        }
        self.ask_for_more()
    }

    /// Says whether the end has begun.
    fn sweep_slots<R: Wait + Eprint>(&self, rt: &R, now: Instant) -> bool {
        let mut slots = self.slots.lock(rt);
        slots.sweep(now);
        if slots.trouble.ends(now) {
            let _ = eprintln!(rt; "ks: connections are accepted again");
        }
        if slots.look_for_end(now) {
            self.stop_listening();
            self.pollers.wake_all();
            let _ = eprintln!(rt;
                "ks: a signal asks for the end: what is at work has {END_SECONDS} seconds"
            );
        }
        slots.is_ending()
    }

    /// From now on connections to the listener's address are refused.
    fn stop_listening(&self) {
        let _stopped = shutdown(self.listener.as_raw_fd(), SHUT_RD);
    }
}
