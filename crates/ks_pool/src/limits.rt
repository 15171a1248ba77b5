//! How much of its clients' connections the pool keeps, and how long.

/// How many descriptors of the process are left to files and to the standard streams.
pub const SPARE_DESCRIPTORS: u64 = 64;

/// How many each worker has to wait for its connections.
pub const WORKER_DESCRIPTORS: u64 = 3;

/// How many connections are kept at most, whatever the process may have.
pub const CONNECTIONS: usize = 10_000;

/// How many connections are accepted in a row before others are served.
pub const ACCEPTS: u32 = 256;

/// How many bytes are read at once.
pub const PIECE: usize = 4_096;

/// How many bytes of its responses wait for a client, beside those that the system holds.
pub const WAITING_BYTES: usize = 1_048_576;

/// How many bytes of responses are gathered at most, where requests lie ready behind each other.
pub const GATHERED_BYTES: usize = 16_384;

/// For how many microseconds they are, but for the one that is made then.
pub const GATHER_MICROS: u128 = 1_000;

/// How many requests that lie ready behind each other are answered before others are.
pub const REQUESTS_AT_ONCE: u32 = 16;

/// How many seconds a client has for its next request, that is for the first byte of it.
pub const IDLE_SECONDS: u64 = 60;

/// How many seconds it has for the whole head, counted from the first byte.
pub const HEAD_SECONDS: u64 = 10;

/// How many seconds it has for the whole request, counted from the first byte.
pub const REQUEST_SECONDS: u64 = 30;

/// How many seconds it has to take a whole response, counted from where it stopped taking.
pub const RESPONSE_SECONDS: u64 = 30;

/// How many seconds it has, once nothing more is written, to close its side or to send what it had begun.
pub const CLOSING_SECONDS: u64 = 2;

/// How many seconds a leap of the clock has at least that is doubted, and for how many it has to stand until it counts.
pub const LEAP_SECONDS: u64 = 60;

/// How many milliseconds one wait for connections, or for the client of one, takes at most: so often the end is looked for.
pub const WAIT_MILLIS: i32 = 1_000;

/// How many milliseconds the wait of a worker takes at most that is on guard alone: so often guards look at what came for busy
/// workers, all together.
pub const GUARD_MILLIS: i32 = 2;

/// How many times a worker waits for what comes for itself until it looks at what came for others.
pub const OWN_WAITS: u32 = 16;

/// How many milliseconds one wait for connections takes at most once the end has begun: each worker then waits once more.
pub const LAST_WAIT_MILLIS: i32 = 10;

/// How many seconds requests at work have to end, once a signal asks the process to end.
pub const END_SECONDS: u64 = 5;

/// How many bytes that it still sends are passed over then.
pub const CLOSING_BYTES: usize = 1_048_576;
