//! Calls to connections that do not wait.
ghost use Rattle.std.specs.Prelude.{◌≤◌, IfOk, IfSome, length};

use ks_outside::Failed;
use mio::net::TcpStream;
use std::io::{ErrorKind, Read, Write};

/// Reads what is there, or nothing.
pub fn read_now(stream: &mut TcpStream, into: &mut [u8]) -> Result<Option<usize>, Failed>
    ensures within { IfOk result (λ came. IfSome came (λ n. n ≤ length into.old)) }
{
    'tries: for _ in 0..u64::MAX {
        match stream.read(into) {
            Ok(count) => return Ok(Some(count)),
            Err(error) if error.kind() == ErrorKind::Interrupted => {}
            Err(error) if error.kind() == ErrorKind::WouldBlock => return Ok(None),
            Err(_) => return Err(Failed),
        }
    }
    Err(Failed)
}

/// Writes what is taken, or nothing.
pub fn write_now(stream: &mut TcpStream, piece: &[u8]) -> Result<Option<usize>, Failed>
    ensures within { IfOk result (λ went. IfSome went (λ n. n ≤ length piece.now)) }
{
    'tries: for _ in 0..u64::MAX {
        match stream.write(piece) {
            Ok(count) => return Ok(Some(count)),
            Err(error) if error.kind() == ErrorKind::Interrupted => {}
            Err(error) if error.kind() == ErrorKind::WouldBlock => return Ok(None),
            Err(_) => return Err(Failed),
        }
    }
    Err(Failed)
}
