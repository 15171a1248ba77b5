//! Links over TCP, and desks over a pool of connections, the clock and the random source.

use crate::desks::serve;
use ks_base::Memory;
use ks_outside::{Desk, Failed, Folder, KeyDir, Sink, Source};
use ks_pool::{Pool, RealDesk, TcpLink};
use mio::net::TcpListener;
use std::alloc::Global;
use std::io::{Read, Write};
use std::net::{Ipv4Addr, SocketAddr, SocketAddrV4, TcpStream};
use std::random::RandomSource;
use std::rt::Clock;
use std::sync::Wait;
use std::test::Fail;
use std::thread::Threads;
use std::time::Duration;
use std::{io, thread};

/// What looks like a request at once, since no head has such a line.
const LINE: &[u8] = b"abc\n";

/// A pool for two workers of the connections to a port of its own, and the address.
fn listen(rt: &HostRuntime) -> io::Result<(Pool, SocketAddr)> {
    let any = SocketAddrV4::new(Ipv4Addr::LOCALHOST, 0);
    let listener = TcpListener::bind(rt, SocketAddr::V4(any))?;
    let address = listener.local_addr()?;
    Ok((Pool::new(rt, listener, 2, None)?, address))
}

/// A client at this address, which has sent this.
fn client(rt: &HostRuntime, address: SocketAddr, sent: &[u8]) -> io::Result<TcpStream> {
    let mut client = TcpStream::connect(rt, address)?;
    client.write_all(sent)?;
    Ok(client)
}

/// All that comes to a client until its connection ends.
fn hear_all(alloc: Global, client: &mut TcpStream) -> io::Result<Vec<u8>> {
    let mut heard = Vec::new(alloc);
    let _count = client.read_to_end(&mut heard)?;
    Ok(heard)
}

/// When a desk over this pool served its next link.
fn serve_next<R: Clock + RandomSource + Wait + Eprint>(
    rt: &R,
    pool: &Pool,
) -> Result<Option<u64>, Failed> {
    serve(&mut RealDesk::new(rt, Some(pool)))
}

#[test]
fn a_desk_serves_a_connection(rt: HostRuntime) -> Result<(), Fail> {
    let (pool, address) = listen(&rt)?;
    let mut client = client(&rt, address, LINE)?;
    let moment = serve_next(&rt, &pool)?;
    assert!(rt; moment.ok_or("no link")? > 1_700_000_000);
    assert!(rt; hear_all(rt.alloc(), &mut client)?.as_slice() == b"abc".as_slice());
    Ok(())
}

/// A desk with its folder, and whether it served a link.
#[derive(Drop)]
struct Worker<P, D> {
    desk: P,
    dir: D,
    served: bool,
}

/// Each worker serves one link, on a thread of its own where there can be one.
fn serve_each<R, P, D>(rt: &R, workers: &mut [Worker<P, D>])
where
    R: Threads + Sync,
    P: Desk + Send + Drop,
    P::Link: Send,
    D: KeyDir + Send + Drop,
{
    thread::for_each_mut(
        rt,
        workers,
        2,
        &|_, worker: &mut Worker<P, D>| {
            worker.served = serve(&mut worker.desk).is_ok();
        },
    );
}

/// The worker of this number over the system's folder and a pool, who has served no link.
fn idle_worker<'a>(
    rt: &'a HostRuntime,
    pool: &'a Pool,
    number: u32,
) -> Result<Worker<RealDesk<'a, HostRuntime>, Folder<'a, HostRuntime>>, Memory> {
    Ok(Worker {
        desk: RealDesk::new(rt, Some(pool)).of_worker(number),
        dir: Folder::new(rt.alloc(), rt, "keys")?,
        served: false,
    })
}

#[test]
fn desks_on_threads_share_a_pool(rt: HostRuntime) -> Result<(), Fail> {
    let (pool, address) = listen(&rt)?;
    let mut clients = Vec::new(rt.alloc());
    for _ in 0..2 {
        clients.push(client(&rt, address, LINE)?)?;
    }
    let mut workers = [idle_worker(&rt, &pool, 0)?, idle_worker(&rt, &pool, 1)?];
    serve_each(&rt, &mut workers);
    assert!(rt; workers.iter().all(|worker| worker.served));
    for client in &mut clients {
        assert!(rt; hear_all(rt.alloc(), client)?.as_slice() == b"abc".as_slice());
    }
    Ok(())
}

/// The link that a desk over this pool hands out next.
fn next_link<'a, R: Clock + RandomSource + Wait + Eprint>(
    rt: &'a R,
    pool: &'a Pool,
) -> Result<TcpLink<'a, R>, Fail> {
    let link = RealDesk::new(rt, Some(pool)).accept()?;
    Ok(link.ok_or("no link")?)
}

/// The two bytes that come to a client next.
fn hear_two(client: &mut TcpStream) -> io::Result<[u8; 2]> {
    let mut heard = [0; 2];
    client.read_exact(&mut heard)?;
    Ok(heard)
}

/// The next byte of a source, if there is one.
fn next_byte<S: Source>(source: &mut S) -> Result<Option<u8>, Failed> {
    let mut into = [0; 1];
    let count = source.read(&mut into)?;
    Ok((count == 1).then_some(into[0]))
}

#[test]
fn a_link_reads_on_within_a_request_and_behind_an_answer(rt: HostRuntime) -> Result<(), Fail> {
    let (pool, address) = listen(&rt)?;
    let mut client = client(&rt, address, b"a\n")?;
    let mut link = next_link(&rt, &pool)?;
    assert!(rt; next_byte(&mut link)? == Some(b'a'));
    assert!(rt; next_byte(&mut link)? == Some(b'\n'));
    assert!(rt; link.write(b"xy")? == 2);
    assert!(rt; hear_two(&mut client)? == *b"xy");
    client.write_all(b"c")?;
    assert!(rt; next_byte(&mut link)? == Some(b'c'));
    drop(client);
    assert!(rt; next_byte(&mut link)?.is_none());
    Ok(())
}

/// Two requests, of which the second is sent behind the answer to the first.
const HEAD: &[u8] = b"GET / HTTP/1.1\r\n\r\n";

const WITH_BODY: &[u8] = b"POST / HTTP/1.0\r\ncontent-length: 3\r\n\r\nabc";

/// Whether a link gives these bytes, and then takes an answer.
fn answers<L: Source + Sink>(link: &mut L, bytes: &[u8]) -> Result<bool, Failed> {
    for byte in bytes {
        if next_byte(link)? != Some(*byte) {
            return Ok(false);
        }
    }
    Ok(link.write(b"xy")? == 2)
}

/// Whether the next link of a desk gives these bytes, takes an answer, and then rests.
fn gives<D: Desk>(desk: &mut D, bytes: &[u8]) -> Result<bool, Failed> {
    let Some(mut link) = desk.accept()? else {
        return Ok(false);
    };
    let has_answered = answers(&mut link, bytes);
    let rests = link.rests();
    desk.give_back(link);
    Ok(has_answered? && rests)
}

#[test]
fn a_connection_rests_between_its_requests(rt: HostRuntime) -> Result<(), Fail> {
    let (pool, address) = listen(&rt)?;
    let mut desk = RealDesk::new(&rt, Some(&pool));
    let mut client = client(&rt, address, HEAD)?;
    assert!(rt; gives(&mut desk, HEAD)?);
    assert!(rt; hear_two(&mut client)? == *b"xy");
    client.write_all(WITH_BODY)?;
    assert!(rt; gives(&mut desk, WITH_BODY)?);
    assert!(rt; hear_two(&mut client)? == *b"xy");
    Ok(())
}

#[test]
fn a_worker_comes_only_to_a_whole_request(rt: HostRuntime) -> Result<(), Fail> {
    let (pool, address) = listen(&rt)?;
    let mut desk = RealDesk::new(&rt, Some(&pool));
    let mut slow = client(&rt, address, WITH_BODY.split_at(WITH_BODY.len() - 1).0)?;
    let mut other = client(&rt, address, HEAD)?;
    assert!(rt; gives(&mut desk, HEAD)?);
    assert!(rt; hear_two(&mut other)? == *b"xy");
    slow.write_all(b"c")?;
    assert!(rt; gives(&mut desk, WITH_BODY)?);
    assert!(rt; hear_two(&mut slow)? == *b"xy");
    Ok(())
}

/// Bytes of a desk's random source.
fn draw<D: Desk, const N: usize>(desk: &mut D) -> Result<[u8; N], Failed> {
    let mut drawn = [0; N];
    desk.fill(&mut drawn)?;
    Ok(drawn)
}

#[test]
fn a_desk_fills_the_whole_piece(rt: HostRuntime) -> Result<(), Fail> {
    let mut desk = RealDesk::new(&rt, None);
    let drawn: [u8; 64] = draw(&mut desk)?;
    for part in drawn.chunks(16) {
        assert!(rt; part != [0; 16].as_slice());
    }
    assert!(rt; draw(&mut desk)? != drawn);
    Ok(())
}

#[test]
fn a_desk_counts_seconds(rt: HostRuntime) -> Result<(), Fail> {
    let mut desk = RealDesk::new(&rt, None);
    let first = desk.reading();
    assert!(rt; first > 1_700_000_000 && first < 100_000_000_000, "{first}");
    thread::sleep(&rt, Duration::from_millis(1_100));
    let second = desk.reading();
    assert!(rt;
        second > first && second < first.saturating_add(60),
        "{first} {second}"
    );
    Ok(())
}

#[test]
fn a_desk_without_a_pool_hands_out_no_link(rt: HostRuntime) -> Result<(), Fail> {
    let mut desk = RealDesk::new(&rt, None);
    assert!(rt; desk.accept().is_err());
    assert!(rt; desk.reading() > 1_700_000_000);
    assert!(rt; draw(&mut desk)? != [0; 16]);
    Ok(())
}

/// How much of this piece a link writes that its client does not read, in one write and the next.
fn write_twice<K: Sink>(link: &mut K, piece: &[u8]) -> Result<(usize, usize), Failed> {
    if piece.is_empty() {
        return Ok((0, 0));
    }
    Ok((link.write(piece)?, link.write(piece)?))
}

#[test]
fn a_link_tells_how_much_it_wrote(rt: HostRuntime) -> Result<(), Fail> {
    let (pool, address) = listen(&rt)?;
    let mut client = client(&rt, address, LINE)?;
    let mut link = next_link(&rt, &pool)?;
    // More than a socket holds while nobody reads, and more than may wait beside it.
    let piece = vec![in rt.alloc(); b'x'; 16_777_216]?;
    let (sent, waiting) = write_twice(&mut link, piece.as_slice())?;
    assert!(rt; 0 < sent && sent < piece.len(), "{sent}");
    assert!(rt; 0 < waiting && waiting <= 1_048_576, "{waiting}");
    drop(link);
    assert_eq!(rt; hear_all(rt.alloc(), &mut client)?.len(), sent);
    Ok(())
}

#[test]
fn a_failed_read_is_not_the_end(rt: HostRuntime) -> Result<(), Fail> {
    let (pool, address) = listen(&rt)?;
    let client = client(&rt, address, LINE)?;
    let mut link = next_link(&rt, &pool)?;
    assert!(rt; link.write(b"xy")? == 2);
    // A connection that is let go with bytes unread is reset.
    drop(client);
    let mut into = [0; 4];
    assert!(rt; link.read(&mut into)? == 4);
    assert_eq!(rt; link.read(&mut into), Err(Failed));
    Ok(())
}
