ghost use Rattle.std.specs.Prelude.{◌≡◌, IfOk, codes, map, option_map};
ghost use Rattle.clap.specs.Words.{app_of, first_value, found_of};
ghost use Rattle.ks_words.specs.Words.{check, check_app, connections_said, drill, drill_app, folder_places, max_said, number_between, number_said, password, password_app, places_app, read_by, rotate, rotate_app, rounds_said, serve, serve_app, serve_places, setup, setup_app, talk, talk_app, workers_said};

use crate::reader::parsed;
use crate::words::{Places, Words};
use clap::{Arg, ArgMatches, Command};
use ks_base::limits::{
    CONNECTIONS, DEFAULT_KEYS, DEFAULT_ROUNDS, DEFAULT_WORKERS, DRILL_MEMBERS, DRILL_START,
    FEWEST_KEYS, KEYS, ROUNDS, WORKERS,
};
use ks_base::{Memory, Text};
use std::alloc::{AllocError, Global};

/// What stands for connections that are not counted.
const UNCOUNTED: u32 = 0;

/// `check`, which takes no word.
pub(crate) fn read_check(alloc: Global, words: &[&str]) -> Result<Words, Memory>
    ensures { IfOk result (λ read. read ≡ read_by check (map (λ word. word.now) words.now)) }
{
    match parsed(Command::new(alloc, "check"), words)? {
        Some(_) => Ok(Words::Check),
        None => Ok(Words::Usage),
    }
}

/// `talk FILE FOLDER`.
pub(crate) fn read_talk(alloc: Global, words: &[&str]) -> Result<Words, Memory>
    ensures { IfOk result (λ read. read ≡ read_by talk (map (λ word. word.now) words.now)) }
{
    match parsed(talk_command(alloc)?, words)? {
        Some(matches) => Ok(Words::Talk(Places {
            file: text_of(alloc, &matches, "file")?,
            folder: text_of(alloc, &matches, "folder")?,
            address: None,
            workers: 1,
            log: None,
        })),
        None => Ok(Words::Usage),
    }
}

fn talk_command<'a>(alloc: Global) -> Result<Command<'a>, AllocError>
    ensures { IfOk result (λ command. app_of command ≡ talk_app) }
{
    let file = Arg::new(alloc, "file").required(true);
    let folder = Arg::new(alloc, "folder").required(true);
    Command::new(alloc, "talk").arg(file)?.arg(folder)
}

/// `setup FOLDER`.
pub(crate) fn read_setup(alloc: Global, words: &[&str]) -> Result<Words, Memory>
    ensures { IfOk result (λ read. read ≡ read_by setup (map (λ word. word.now) words.now)) }
{
    match parsed(setup_command(alloc)?, words)? {
        Some(matches) => Ok(Words::Setup(folder_alone(alloc, &matches)?)),
        None => Ok(Words::Usage),
    }
}

fn setup_command<'a>(alloc: Global) -> Result<Command<'a>, AllocError>
    ensures { IfOk result (λ command. app_of command ≡ setup_app) }
{
    Command::new(alloc, "setup").arg(Arg::new(alloc, "folder").required(true))
}

/// `rotate FOLDER [--max N]`.
pub(crate) fn read_rotate(alloc: Global, words: &[&str]) -> Result<Words, Memory>
    ensures { IfOk result (λ read. read ≡ read_by rotate (map (λ word. word.now) words.now)) }
{
    let Some(matches) = parsed(rotate_command(alloc)?, words)? else {
        return Ok(Words::Usage);
    };
    match max_of(&matches) {
        Some(max) => Ok(Words::Rotate(folder_alone(alloc, &matches)?, max)),
        None => Ok(Words::Usage),
    }
}

fn rotate_command<'a>(alloc: Global) -> Result<Command<'a>, AllocError>
    ensures { IfOk result (λ command. app_of command ≡ rotate_app) }
{
    let folder = Arg::new(alloc, "folder").required(true);
    let max = Arg::new(alloc, "max").long("max");
    Command::new(alloc, "rotate").arg(folder)?.arg(max)
}

/// How many keys a rotation is to leave.
fn max_of(matches: &ArgMatches<'_>) -> Option<u32>
    ensures { result ≡ max_said (first_value (found_of matches.now) (codes "max")) }
{
    match matches.get_str("max") {
        Some(word) => number_between(word, FEWEST_KEYS, KEYS as u32),
        None => Some(DEFAULT_KEYS),
    }
}

/// `serve FILE FOLDER ADDRESS [--workers N] [--connections N] [--log FILE]`.
pub(crate) fn read_serve(alloc: Global, words: &[&str]) -> Result<Words, Memory>
    ensures { IfOk result (λ read. read ≡ read_by serve (map (λ word. word.now) words.now)) }
{
    let Some(matches) = parsed(serve_command(alloc)?, words)? else {
        return Ok(Words::Usage);
    };
    let Some(workers) = workers_of(&matches) else {
        return Ok(Words::Usage);
    };
    match connections_of(&matches) {
        Some(connections) => {
            let places = serve_places(alloc, &matches, workers)?;
            Ok(Words::Serve(places, u64::from(connections)))
        }
        None => Ok(Words::Usage),
    }
}

fn serve_command<'a>(alloc: Global) -> Result<Command<'a>, AllocError>
    ensures { IfOk result (λ command. app_of command ≡ serve_app) }
{
    let workers = Arg::new(alloc, "workers").long("workers");
    let connections = Arg::new(alloc, "connections").long("connections");
    let log = Arg::new(alloc, "log").long("log");
    places_command(alloc)?
        .arg(workers)?
        .arg(connections)?
        .arg(log)
}

/// The command with its places alone.
fn places_command<'a>(alloc: Global) -> Result<Command<'a>, AllocError>
    ensures { IfOk result (λ command. app_of command ≡ places_app) }
{
    let file = Arg::new(alloc, "file").required(true);
    let folder = Arg::new(alloc, "folder").required(true);
    let address = Arg::new(alloc, "address").required(true);
    Command::new(alloc, "serve")
        .arg(file)?
        .arg(folder)?
        .arg(address)
}

/// How many workers are to serve.
fn workers_of(matches: &ArgMatches<'_>) -> Option<u32>
    ensures { result ≡ workers_said (first_value (found_of matches.now) (codes "workers")) }
{
    match matches.get_str("workers") {
        Some(word) => number_between(word, 1, WORKERS),
        None => Some(DEFAULT_WORKERS),
    }
}

/// How many connections each worker is to serve.
fn connections_of(matches: &ArgMatches<'_>) -> Option<u32>
    ensures { result ≡ connections_said (first_value (found_of matches.now) (codes "connections")) }
{
    match matches.get_str("connections") {
        Some(word) => number_between(word, UNCOUNTED, CONNECTIONS),
        None => Some(UNCOUNTED),
    }
}

/// What a server works on.
fn serve_places(alloc: Global, matches: &ArgMatches<'_>, workers: u32) -> Result<Places, Memory>
    ensures { IfOk result (λ places. places ≡ serve_places (first_value (found_of matches.now) (codes "file"))
        (first_value (found_of matches.now) (codes "folder")) (first_value (found_of matches.now) (codes "address"))
        (first_value (found_of matches.now) (codes "log")) workers) }
{
    Ok(Places {
        file: text_of(alloc, matches, "file")?,
        folder: text_of(alloc, matches, "folder")?,
        address: text_of(alloc, matches, "address")?,
        workers,
        log: text_of(alloc, matches, "log")?,
    })
}

/// The number within these bounds that a word writes.
pub fn number_between(word: &str, least: u32, most: u32) -> Option<u32>
    ensures { result ≡ number_between least most word.now }
{
    let Ok(number) = word.parse::<u32>() else {
        return None;
    };
    if least <= number && number <= most {
        Some(number)
    } else {
        None
    }
}

/// What a command works on that has a folder alone.
fn folder_alone(alloc: Global, matches: &ArgMatches<'_>) -> Result<Places, Memory>
    ensures { IfOk result (λ places. places ≡ folder_places (first_value (found_of matches.now) (codes "folder"))) }
{
    Ok(Places {
        file: None,
        folder: text_of(alloc, matches, "folder")?,
        address: None,
        workers: 1,
        log: None,
    })
}

/// The first value of an argument.
fn text_of(alloc: Global, matches: &ArgMatches<'_>, id: &str) -> Result<Option<Text>, Memory>
    ensures { IfOk result (λ text. text ≡ first_value (found_of matches.now) id.now) }
{
    match matches.get_str(id) {
        Some(text) => Ok(Some(Text::of(alloc, text)?)),
        None => Ok(None),
    }
}

/// `password [--rounds N]`.
pub(crate) fn read_password(alloc: Global, words: &[&str]) -> Result<Words, Memory>
    ensures { IfOk result (λ read. read ≡ read_by password (map (λ word. word.now) words.now)) }
{
    let Some(matches) = parsed(password_command(alloc)?, words)? else {
        return Ok(Words::Usage);
    };
    match rounds_of(&matches) {
        Some(rounds) => Ok(Words::Password(rounds)),
        None => Ok(Words::Usage),
    }
}

fn password_command<'a>(alloc: Global) -> Result<Command<'a>, AllocError>
    ensures { IfOk result (λ command. app_of command ≡ password_app) }
{
    Command::new(alloc, "password").arg(Arg::new(alloc, "rounds").long("rounds"))
}

/// By how many rounds a password is to be derived.
fn rounds_of(matches: &ArgMatches<'_>) -> Option<u32>
    ensures { result ≡ rounds_said (first_value (found_of matches.now) (codes "rounds")) }
{
    match matches.get_str("rounds") {
        Some(word) => number_between(word, 1, ROUNDS),
        None => Some(DEFAULT_ROUNDS),
    }
}

/// `drill START COUNT`.
pub(crate) fn read_drill(alloc: Global, words: &[&str]) -> Result<Words, Memory>
    ensures { IfOk result (λ read. read ≡ read_by drill (map (λ word. word.now) words.now)) }
{
    let Some(matches) = parsed(drill_command(alloc)?, words)? else {
        return Ok(Words::Usage);
    };
    let Some(start) = number_of(&matches, "start", 0, DRILL_START) else {
        return Ok(Words::Usage);
    };
    match number_of(&matches, "count", 1, DRILL_MEMBERS) {
        Some(count) => Ok(Words::Drill(u64::from(start), count)),
        None => Ok(Words::Usage),
    }
}

fn drill_command<'a>(alloc: Global) -> Result<Command<'a>, AllocError>
    ensures { IfOk result (λ command. app_of command ≡ drill_app) }
{
    let start = Arg::new(alloc, "start").required(true);
    let count = Arg::new(alloc, "count").required(true);
    Command::new(alloc, "drill").arg(start)?.arg(count)
}

/// The number within these bounds that the first value of an argument writes.
fn number_of(matches: &ArgMatches<'_>, id: &str, least: u32, most: u32) -> Option<u32>
    ensures { result ≡ number_said least most (first_value (found_of matches.now) id.now) }
{
    match matches.get_str(id) {
        Some(word) => number_between(word, least, most),
        None => None,
    }
}
