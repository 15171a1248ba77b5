//! The table of openings.

use crate::run::{WHOLE, run};
use crate::session::{Session, TALK};
use crate::world::World;
use anyhow::{Result, ensure};
use ks_tables::Case;
use std::rt::Files;
use std::sync::Wait;
use std::thread::Threads;

/// The status of a run over an empty input, which writes nothing.
pub fn openings<R: Files + AllocGlobal + Threads + Wait + Sync>(
    rt: &R,
    world: &World,
    case: &Case,
) -> Result<String> {
    let session = Session::over(rt, world, case.str(0)?)?;
    let end = run(rt, TALK, &session.outside(WHOLE))?;
    ensure!(end.written.is_empty(), "{} bytes", end.written.len());
    Ok(format!(in rt.alloc(); "{}", end.status)?)
}
