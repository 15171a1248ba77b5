//! Tries whole runs of the program's commands on tables of cases, over objects in memory: lines of `check`, passwords, drills, words, connections
//! of `talk` and of `serve`, folders of keys, openings, whole sessions, of which every byte that is written is compared, and restarts. Prints
//! for each table of `data/` how many of its cases held, and what was otherwise.
#![tactic(auto)]

mod checks;
mod cuts;
mod fails;
mod folders;
mod keepers;
mod kept;
mod many;
mod names;
mod openings;
mod run;
mod serves;
mod session;
mod sessions;
mod talks;
mod world;

use crate::run::WHOLE;
use crate::session::Session;
use crate::world::World;
use anyhow::Result;
use ks_tables::{read_rows, try_table};
use std::rt::Files;
use std::sync::Wait;
use std::thread::Threads;

/// The tables of sessions.
const TABLES: [&str; 14] = [
    "logins",
    "tokens",
    "credentials",
    "factors",
    "rows",
    "relations",
    "trusts",
    "revocations",
    "keys",
    "routes",
    "wire",
    "faults",
    "bodies",
    "opened",
];

fn main(rt: HostRuntime) -> Result<()> {
    let world = World::read(&rt)?;
    try_commands(&rt, &world)?;
    try_sessions(&rt, &world)
}

/// Tries the tables of single runs. Those of connections stand on one without a request, for which the clock reads 08:20:00 on
/// 26 October 1985 and random bytes are drawn once.
fn try_commands<R: Files + Print + AllocGlobal + Threads + Wait + Sync>(
    rt: &R,
    world: &World,
) -> Result<()> {
    try_table(rt, "checks", |_alloc, case| checks::checks(rt, case))?;
    try_table(
        rt,
        "check_faults",
        |_alloc, case| checks::check_faults(rt, case),
    )?;
    try_table(rt, "passwords", |_alloc, case| checks::passwords(rt, case))?;
    try_table(rt, "drills", |_alloc, case| checks::drills(rt, case))?;
    try_table(rt, "words", |_alloc, case| checks::words(rt, case))?;
    let mut session = Session::over(rt, world, "o1")?;
    session.need(rt.alloc(), "499162800", "01")?;
    let responses = read_rows(rt, "talk_responses")?;
    let (outside, known) = (session.outside(WHOLE), responses.as_slice());
    try_table(
        rt,
        "talks",
        |_alloc, case| talks::talks(rt, &outside, known, case),
    )?;
    try_table(
        rt,
        "talk_faults",
        |_alloc, case| talks::talk_faults(rt, &outside, known, case),
    )?;
    try_table(
        rt,
        "serves",
        |_alloc, case| serves::serves(rt, &outside, known, case),
    )?;
    try_table(
        rt,
        "talk_desks",
        |_alloc, case| serves::talk_desks(rt, &outside, known, case),
    )?;
    try_table(rt, "folders", |_alloc, case| folders::folders(rt, case))
}

/// Tries the tables of sessions, and those of the openings and the requests that go with them.
fn try_sessions<R: Files + Print + AllocGlobal + Threads + Wait + Sync>(
    rt: &R,
    world: &World,
) -> Result<()> {
    try_table(
        rt,
        "openings",
        |_alloc, case| openings::openings(rt, world, case),
    )?;
    for name in TABLES {
        sessions::try_table(rt, world, name)?;
    }
    try_table(rt, "cuts", |_alloc, case| cuts::cuts(rt, world, case))?;
    try_table(rt, "many", |_alloc, case| many::many(rt, world, case))?;
    try_table(
        rt,
        "keepers",
        |_alloc, case| keepers::keepers(rt, world, case),
    )?;
    try_table(rt, "books", |_alloc, case| keepers::books(rt, world, case))
}
