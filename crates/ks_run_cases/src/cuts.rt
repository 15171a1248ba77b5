//! The table of requests that are cut.

use crate::run::{Outside, WHOLE, run};
use crate::session::{Session, TALK};
use crate::world::World;
use anyhow::{Result, ensure};
use ks_tables::Case;
use std::rt::Files;
use std::sync::Wait;
use std::thread::Threads;

/// Of a request: the one response to each of its fronts.
pub fn cuts<R: Files + AllocGlobal + Threads + Wait + Sync>(
    rt: &R,
    world: &World,
    case: &Case,
) -> Result<String> {
    let mut session = Session::over(rt, world, "o1")?;
    session.ask(rt.alloc(), world, "", "", case.str(0)?)?;
    response(rt, &session.outside(WHOLE))
}

/// The one response to each front of the input but the whole.
fn response<R: AllocGlobal + Threads + Wait + Sync>(
    rt: &R,
    outside: &Outside<'_>,
) -> Result<String> {
    let mut response = Vec::new(rt.alloc());
    for length in 1..outside.input.len() {
        let input = &outside.input[..length];
        let end = run(rt, TALK, &Outside { input, ..*outside })?;
        let is_same = length == 1 || end.written.as_slice() == response.as_slice();
        ensure!(
            end.status == 0 && is_same,
            "otherwise behind {length} bytes"
        );
        response = end.written;
    }
    Ok(String::from_utf8(response)?)
}
