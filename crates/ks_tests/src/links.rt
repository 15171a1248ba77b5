//! Sources, sinks and links in memory.

use ks_outside::{
    Failed, Gate, MemoryLink, MemorySink, MemorySource, Open, Pair, Place, Sink, Source, write_all,
};
use std::test::Fail;

/// Reads at most 3 bytes, and writes them back.
pub fn echo<L: Source + Sink>(link: &mut L) -> Result<usize, Failed> {
    let mut held = [0; 3];
    let count = link.read(&mut held)?.min(3);
    write_all(link, held.split_at(count).0)?;
    Ok(count)
}

/// What each read of a source answers, and the first byte that it leaves.
const READS: &[(Result<usize, Failed>, u8)] = &[
    (Ok(1), b'a'),
    (Err(Failed), b'-'),
    (Ok(1), b'b'),
    (Err(Failed), b'-'),
    (Ok(1), b'c'),
    (Ok(0), b'-'),
];

#[test]
fn a_source_gives_its_bytes_in_order(rt: HostRuntime) -> Result<(), Fail> {
    let mut source = MemorySource::new(rt.alloc(), b"abc", &[2, 4], 1)?;
    for (answer, byte) in READS {
        let mut into = *b"----";
        assert!(rt; source.read(&mut into) == *answer);
        assert!(rt; into == [*byte, b'-', b'-', b'-']);
    }
    Ok(())
}

/// Pieces, whether each is written whole, and all that is written then.
const WRITES: &[(&[u8], Result<(), Failed>, &[u8])] = &[
    (b"", Ok(()), b""),
    (b"abcdefgh", Err(Failed), b"abcdef"),
    (b"ghij", Ok(()), b"abcdefghij"),
    (b"klm", Err(Failed), b"abcdefghijkl"),
];

#[test]
fn a_sink_takes_what_it_has_room_for(rt: HostRuntime) -> Result<(), Fail> {
    let mut sink = MemorySink::new(rt.alloc(), 12, &[3], 3)?;
    for (piece, answer, written) in WRITES {
        assert!(rt; write_all(&mut sink, piece) == *answer);
        assert!(rt; sink.written() == *written);
    }
    assert!(rt; sink.write(b"mnop") == Err(Failed));
    Ok(())
}

/// Echoes from the one to the other, before they make a link.
fn echo_apart(source: &mut MemorySource, sink: &mut MemorySink) -> Result<usize, Failed> {
    echo(&mut Pair { source, sink })
}

/// What each echo over a link answers, and all that is written then.
const ECHOES: &[(Result<usize, Failed>, &[u8])] = &[
    (Ok(2), b"abcd"),
    (Err(Failed), b"abcd"),
    (Ok(2), b"abcdef"),
    (Ok(0), b"abcdef"),
];

#[test]
fn two_ends_make_a_link(rt: HostRuntime) -> Result<(), Fail> {
    let mut source = MemorySource::new(rt.alloc(), b"abcdef", &[3], 2)?;
    let mut sink = MemorySink::new(rt.alloc(), 8, &[], 8)?;
    assert!(rt; echo_apart(&mut source, &mut sink) == Ok(2));
    let mut link = MemoryLink::new(source, sink);
    for (answer, written) in ECHOES {
        assert!(rt; echo(&mut link) == *answer);
        assert!(rt; link.written() == *written);
    }
    Ok(())
}

fn pass<G: Gate>(gate: &G) {
    for place in [Place::Opening, Place::Deriving, Place::BeforeHold] {
        gate.at(place);
    }
}

#[test]
fn an_open_gate_holds_no_one() {
    pass(&Open);
}
