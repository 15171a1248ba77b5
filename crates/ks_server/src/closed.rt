use ks_http::HttpCause;

/// Why a connection ended.
#[derive(Drop)]
pub enum Closed<F> {
    /// The input ended between requests.
    End,
    /// It rests between two requests, where it may: no byte of a further one was read. Its link is as good as before.
    Rests,
    /// A request asked for it.
    Asked,
    /// It had 1,000,000 requests.
    Last,
    /// The input could not be read.
    ReadFault,
    /// The output took no more.
    WriteFault,
    /// Bytes came that are no request. This is answered.
    BadHttp(HttpCause),
    /// There was no memory. This is answered.
    Memory,
    /// Changes could not be kept, and the response that could show them was left out.
    KeeperFault(F),
}
