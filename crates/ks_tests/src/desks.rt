//! Desks in memory.

use crate::links::echo;
use ks_base::{Drawn, Memory, Receipt};
use ks_outside::{Desk, DeskCall, Failed, MemoryDesk, MemoryLink, MemorySink, MemorySource};
use std::alloc::Global;
use std::test::Fail;

/// Serves the next link: what it says goes back to it, and a receipt notes the moment and a draw.
pub fn serve<D: Desk>(desk: &mut D) -> Result<Option<u64>, Failed> {
    let Some(mut link) = desk.accept()? else {
        return Ok(None);
    };
    let _echoed = echo(&mut link);
    desk.give_back(link);
    let mut draw = [0; 64];
    let draw = match desk.fill(&mut draw) {
        Ok(()) => Drawn::Bytes(draw),
        Err(Failed) => Drawn::Failed,
    };
    let moment = desk.reading();
    if desk.ready().is_ok() {
        desk.note(Receipt {
            connection: 0,
            request: 0,
            changes: 0,
            moment,
            draw,
            folder: false,
            memory: false,
        });
    }
    Ok(Some(moment))
}

/// Links over which these texts come, with room for 8 bytes each.
fn links(alloc: Global, texts: &[&[u8]]) -> Result<Vec<MemoryLink>, Memory> {
    let mut links = Vec::new(alloc);
    for text in texts {
        let source = MemorySource::new(alloc, text, &[], 8)?;
        let sink = MemorySink::new(alloc, 8, &[], 8)?;
        links.push(MemoryLink::new(source, sink))?;
    }
    Ok(links)
}

/// A desk of three links, two readings and two draws, whose second accept and second fill fail.
fn three_links(alloc: Global) -> Result<MemoryDesk, Memory> {
    let links = links(alloc, &[b"abc", b"def", b"ghi"])?;
    let mut random = [1; 192];
    random[64..128].fill(2);
    MemoryDesk::new(alloc, links, &[5, 7], &random[..130], &[2], &[2])
}

/// Whether these are the draws that the receipts note.
fn are_noted(draws: &[Drawn], receipts: &[Receipt]) -> bool {
    receipts.len() == draws.len()
        && receipts
            .iter()
            .zip(draws)
            .all(|(receipt, draw)| is_same(&receipt.draw, draw))
}

fn is_same(noted: &Drawn, drawn: &Drawn) -> bool {
    match (noted, drawn) {
        (Drawn::Bytes(noted), Drawn::Bytes(drawn)) => noted == drawn,
        (Drawn::Unused, Drawn::Unused) | (Drawn::Failed, Drawn::Failed) => true,
        (Drawn::Bytes(_) | Drawn::Unused | Drawn::Failed, _) => false,
    }
}

/// When that desk serves each link.
const MOMENTS: &[Result<Option<u64>, Failed>] = &[
    Ok(Some(5)),
    Err(Failed),
    Ok(Some(7)),
    Ok(Some(7)),
    Ok(None),
];

/// What it then notes of its draws.
const DRAWS: &[Drawn] = &[Drawn::Bytes([1; 64]), Drawn::Failed, Drawn::Bytes([2; 64])];

/// What a desk tells of its calls once it has served a link.
const CALLS: &[DeskCall] = &[
    DeskCall::Fill(64),
    DeskCall::Reading,
    DeskCall::Ready,
    DeskCall::Note,
];

#[test]
fn a_desk_in_memory_tells_what_it_gave_and_took(rt: HostRuntime) -> Result<(), Fail> {
    let mut desk = three_links(rt.alloc())?;
    for moment in MOMENTS {
        assert!(rt; serve(&mut desk) == *moment);
    }
    assert!(rt; are_noted(DRAWS, desk.receipts()));
    assert!(rt; desk.given_back().len() == 3);
    assert!(rt; desk.given_back()[1].written() == b"def".as_slice());
    Ok(())
}

#[test]
fn a_desk_in_memory_tells_its_calls_in_order(rt: HostRuntime) -> Result<(), Fail> {
    let mut desk = three_links(rt.alloc())?;
    assert!(rt; serve(&mut desk) == Ok(Some(5)));
    assert!(rt; desk.calls().is_some_and(|calls| calls == CALLS));
    Ok(())
}
