//! Readers and writers that falter, under the sources and sinks over them.

use ks_outside::{Failed, RealSink, RealSource, Sink, Source, write_all};
use std::io;
use std::io::{ErrorKind, Read, Write};
use std::test::Fail;

/// A reader or a writer whose first call is interrupted. The second gives or takes one byte, the third
/// none, and from the fourth on it is broken.
#[derive(Drop)]
struct Faltering {
    calls: u8,
}

impl Faltering {
    fn answer(&mut self) -> io::Result<usize> {
        self.calls = self.calls.saturating_add(1);
        match self.calls {
            1 => Err(ErrorKind::Interrupted.into()),
            2 => Ok(1),
            3 => Ok(0),
            _ => Err(io::Error::other("broken")),
        }
    }
}

impl Read for Faltering {
    fn read(&mut self, buf: &mut [u8]) -> io::Result<usize> {
        let count = self.answer()?.min(buf.len());
        buf[..count].fill(b'x');
        Ok(count)
    }
}

impl Write for Faltering {
    fn write(&mut self, buf: &[u8]) -> io::Result<usize> {
        Ok(self.answer()?.min(buf.len()))
    }

    fn flush(&mut self) -> io::Result<()> {
        Ok(())
    }
}

fn read<S: Source>(source: &mut S) -> Result<usize, Failed> {
    source.read(&mut [0; 4])
}

fn write<K: Sink>(sink: &mut K) -> Result<usize, Failed> {
    sink.write(b"abcd")
}

#[test]
fn a_source_reads_to_the_end_of_its_reader(rt: HostRuntime) {
    let mut text = RealSource::new(b"hello".as_slice());
    for answer in [Ok(4), Ok(1), Ok(0)] {
        assert_eq!(rt; read(&mut text), answer);
    }
}

#[test]
fn a_source_tries_again_only_where_it_was_interrupted(rt: HostRuntime) {
    let mut faltering = RealSource::new(Faltering { calls: 0 });
    for answer in [Ok(1), Ok(0), Err(Failed), Err(Failed)] {
        assert_eq!(rt; read(&mut faltering), answer);
    }
}

#[test]
fn a_sink_writes_to_its_writer(rt: HostRuntime) -> Result<(), Fail> {
    let mut held = Vec::new(rt.alloc());
    write_all(&mut RealSink::new(&mut held), b"hello")?;
    assert!(rt; held.as_slice() == b"hello".as_slice());
    Ok(())
}

#[test]
fn a_sink_tries_again_only_where_it_was_interrupted(rt: HostRuntime) {
    let mut faltering = RealSink::new(Faltering { calls: 0 });
    for answer in [Ok(1), Ok(0), Err(Failed)] {
        assert_eq!(rt; write(&mut faltering), answer);
    }
}

#[test]
fn a_stuck_sink_ends_a_write(rt: HostRuntime) {
    let mut stuck = RealSink::new(Faltering { calls: 0 });
    assert_eq!(rt; write_all(&mut stuck, b"abcd"), Err(Failed));
}
