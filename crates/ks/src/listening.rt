//! The address at which the program listens, and its desks.
ghost use Rattle.std.specs.Prelude.{◌<◌, IfOk, length};

use ks_base::Memory;
use ks_outside::Folder;
use ks_pool::{Log, Pool, RealDesk};
use mio::net::TcpListener;
use std::io;
use std::io::ErrorKind;
use std::net::{Net, ToSocketAddrs};
use std::rt::Clock;
use std::sync::Wait;

/// A listener at the first address of these that can be listened at, with the longest queue that the system allows.
fn bind<R: Net>(rt: &R, address: &str) -> io::Result<TcpListener> {
    let mut failed: io::Error = ErrorKind::AddrNotAvailable.into();
    for address in address.to_socket_addrs(rt)? {
        match TcpListener::bind(rt, address) {
            Ok(listener) => return Ok(listener),
            Err(error) => failed = error,
        }
    }
    Err(failed)
}

/// Listens at an address, and tells requests in the log, if there is one. Connections wait until the opening file is read,
/// and then the pool says in one line that it listens, with the port that it is.
pub fn listen<R: Net + Clock + AllocGlobal + Wait>(
    rt: &R,
    address: &str,
    workers: u32,
    log: Option<Log>,
) -> io::Result<Pool> {
    let listener = bind(rt, address)?;
    let bound = listener.local_addr()?;
    let ending = if workers == 1 { "" } else { "s" };
    let line = format!(in rt.alloc(); "ks: listening on {bound} with {workers} worker{ending}")?;
    let pool = Pool::new(rt, listener, workers, log)?;
    pool.say_first(rt, line);
    Ok(pool)
}

/// A desk at a pool for the worker of this number, with the folder of this path.
fn desk<'a, R: AllocGlobal>(
    rt: &'a R,
    folder: &str,
    pool: Option<&'a Pool>,
    worker: u32,
) -> Result<(RealDesk<'a, R>, Folder<'a, R>), Memory> {
    Ok((
        RealDesk::new(rt, pool).of_worker(worker),
        Folder::new(rt.alloc(), rt, folder)?,
    ))
}

/// So many desks that share a pool, one at least, each with the folder of this path.
pub fn desks<'a, R: AllocGlobal>(
    rt: &'a R,
    folder: &str,
    pool: Option<&'a Pool>,
    workers: u32,
) -> Result<Vec<(RealDesk<'a, R>, Folder<'a, R>)>, Memory>
    ensures { IfOk result (λ desks. 0 < length desks.items) }
{
    let mut desks = Vec::new(rt.alloc());
    'others: for worker in 1..workers {
        desks.push(desk(rt, folder, pool, worker)?)?;
    }
    desks.push(desk(rt, folder, pool, 0)?)?;
    Ok(desks)
}
