// The program: reads the words of its command line, runs their command over the standard input and
// output, the opening file and the folder that they name, the clock and the random source, and says on
// the standard error why it did not end whole.
#![tactic(auto)]

ghost use Rattle.std.specs.Prelude.{◌<◌, IfOk, length};
ghost use Rattle.ks_keeper.specs.Keeper.{IsTidy};

mod book;
mod listening;
mod log_file;
mod modes;
mod opening_file;
mod standard_streams;
mod teller;
mod threads;

use book::{book_of, path_of_book};
use ks_base::{Memory, Text};
use ks_commands::Fault;
use ks_keeper::{Keeper, OptionalBook};
use ks_outside::{Folder, RealSink, RealSource};
use ks_pool::{Log, Pool, RealDesk};
use ks_top::run;
use ks_words::{Words, read_words};
use listening::{desks, listen};
use log_file::open_log;
use modes::may_open;
use opening_file::OpeningFile;
use std::fs::File;
use std::io::ErrorKind;
use std::net::Net;
use std::process::ExitCode;
use std::rt::{Clock, Env, Files};
use std::sync::Wait;
use std::{env, io};
use teller::{Teller, path_of};
use threads::can_run;

/// The words behind the program's name.
fn words<R: Env + AllocGlobal>(rt: &R) -> Result<Vec<Text>, Fault> {
    let mut args = match env::args(rt) {
        Ok(args) => args,
        Err(error) if error.kind() == ErrorKind::OutOfMemory => return Err(Fault::Memory),
        // A word that is not UTF-8 is no command's.
        Err(_) => return Err(Fault::Usage),
    };
    let _program = args.next();
    let mut words = Vec::new(rt.alloc());
    for arg in args {
        match Text::read(rt.alloc(), arg.as_bytes()) {
            Ok(Some(word)) => {
                if words.push(word).is_err() {
                    return Err(Fault::Memory);
                }
            }
            Ok(None) => return Err(Fault::Usage),
            Err(_) => return Err(Fault::Memory),
        }
    }
    Ok(words)
}

/// The folder of this path, and so many desks with it at the pool, one at least.
fn places<'a, R: AllocGlobal>(
    rt: &'a R,
    folder: &str,
    pool: Option<&'a Pool>,
    workers: u32,
) -> Result<(Folder<'a, R>, Vec<(RealDesk<'a, R>, Folder<'a, R>)>), Memory>
    ensures { IfOk result (λ places. 0 < length places.1.items) }
{
    let dir = Folder::new(rt.alloc(), rt, folder)?;
    Ok((dir, desks(rt, folder, pool, workers)?))
}

/// Says that so many workers can't run beside each other.
fn out_of_threads<R: Eprint>(rt: &R, workers: u32) -> ExitCode {
    let _ = eprintln!(rt; "ks: the system has no threads for {workers} workers");
    ExitCode::from(Fault::Memory.status())
}

/// Says why the program ends before its command began.
fn failed<R: Eprint>(rt: &R, fault: &Fault) -> ExitCode {
    teller::tell(rt, fault);
    ExitCode::from(fault.status())
}

/// The log that the command names, if it names one. Where it can't be opened one line says so, and the status is that of an
/// output that can't be written.
fn log_of(rt: &HostRuntime, command: &Words) -> Result<Option<Log>, ExitCode> {
    let Some(path) = command.log() else {
        return Ok(None);
    };
    let path = path.as_str();
    match open_log(rt, path) {
        Ok(log) => Ok(Some(log)),
        Err(error) => {
            let _ = eprintln!(rt; "ks: {path}: {error}");
            Err(ExitCode::from(Fault::Write.status()))
        }
    }
}

/// The file at this path, if it can be opened without a wait.
fn opened(rt: &HostRuntime, path: &str) -> Option<File> {
    if !may_open(rt, path) {
        return None;
    }
    File::open(rt, path).ok()
}

/// How many workers the command asks for, one where it serves none.
fn workers_of(command: &Words) -> u32 {
    match command.serving() {
        Some(serving) => serving.workers,
        None => 1,
    }
}

/// Says why the command did not end whole. Where there is no memory for the place, it is told without it.
fn tell_at<R: AllocGlobal + Files + Eprint>(rt: &R, teller: &Teller<'_>, fault: &Fault) {
    if teller.tell(rt, fault).is_err() {
        teller::tell(rt, fault);
    }
}

/// What a command works with.
struct Prepared {
    log: Option<Log>,
    /// The opening file, where it could be opened.
    opened: Option<File>,
    keeper: OptionalBook,
}

/// Opens what the command names. `Err` has the status with which the program ends, where that can't be.
fn prepare(rt: &HostRuntime, command: &Words, file: &str, book: &str) -> Result<Prepared, ExitCode>
    ensures { IfOk result (λ made. ⟦<OptionalBook as Keeper>⟧.whole made.keeper → IsTidy (⟦<OptionalBook as Keeper>⟧.kept made.keeper)) }
{
    let log = log_of(rt, command)?;
    let opened = opened(rt, file);
    let keeper = book_of(rt, command, book, opened.is_some())?;
    Ok(Prepared {
        log,
        opened,
        keeper,
    })
}

/// The pool of a command that serves, which listens from now on, or why none does.
fn pool_of<R: Net + Clock + Wait + AllocGlobal>(
    rt: &R,
    command: &Words,
    log: Option<Log>,
) -> (Option<Pool>, Option<io::Error>) {
    let Some(serving) = command.serving() else {
        return (None, None);
    };
    match listen(rt, path_of(command.address()), serving.workers, log) {
        Ok(pool) => (Some(pool), None),
        Err(error) => (None, Some(error)),
    }
}

fn main(rt: HostRuntime) -> ExitCode {
    if !standard_streams::hold() {
        return failed(&rt, &Fault::Write);
    }
    let words = match words(&rt) {
        Ok(words) => words,
        Err(fault) => return failed(&rt, &fault),
    };
    let Ok(command) = read_words(rt.alloc(), words.as_slice()) else {
        return failed(&rt, &Fault::Memory);
    };
    let workers = workers_of(&command);
    if !can_run(&rt, workers) {
        return out_of_threads(&rt, workers);
    }
    let file = path_of(command.file());
    let folder = path_of(command.folder());
    let Ok(book) = path_of_book(rt.alloc(), file) else {
        return failed(&rt, &Fault::Memory);
    };
    let Prepared {
        log,
        opened,
        keeper,
    } = match prepare(&rt, &command, file, book.as_str()) {
        Ok(prepared) => prepared,
        Err(status) => return status,
    };
    if command.serving().is_some() {
        modes::tell(&rt, file, book.as_str(), folder);
    }
    let (pool, unbound) = pool_of(&rt, &command, log);
    let Ok((mut dir, desks)) = places(&rt, folder, pool.as_ref(), workers) else {
        return failed(&rt, &Fault::Memory);
    };
    let mut source = OpeningFile::new(opened);
    let mut input = RealSource::new(rt.stdin());
    let mut output = RealSink::new(rt.stdout());
    // Only over the runtime itself may desks go to threads.
    let ended = run(
        &rt,
        words.as_slice(),
        &mut input,
        &mut source,
        &mut output,
        &mut dir,
        desks,
        keeper,
    );
    if let Some(fault) = &ended.fault {
        let teller = Teller {
            file,
            book: book.as_str(),
            folder,
            address: path_of(command.address()),
            has_failed: source.has_failed(),
            unbound,
            is_open: ended.state.is_some(),
        };
        tell_at(&rt, &teller, fault);
    }
    ExitCode::from(ended.status)
}
