//! The table of secrets and rules: what is answered after some steps.

use anyhow::{Context, Result, bail};
use ks_base::{Bytes, Id, Kind, MfaRow, RowFault, SecretRow};
use ks_tables::Case;
use ks_totp::{Factors, read_base32};
use std::alloc::Global;

/// Of steps, which are parted by semicolons, and a question.
pub fn answer(alloc: Global, case: &Case) -> Result<String> {
    let mut factors = Factors::new(alloc);
    for step in case.str(0)?.split(';') {
        take(alloc, &mut factors, &Words::read(step))?;
    }
    asked(alloc, &mut factors, &Words::read(case.str(1)?))
}

/// Up to four words.
#[derive(Drop)]
struct Words<'a> {
    call: &'a str,
    first: &'a str,
    second: &'a str,
    third: &'a str,
}

impl<'a> Words<'a> {
    fn read(line: &'a str) -> Words<'a> {
        let mut words = line.split_whitespace();
        Words {
            call: words.next().unwrap_or(""),
            first: words.next().unwrap_or(""),
            second: words.next().unwrap_or(""),
            third: words.next().unwrap_or(""),
        }
    }
}

fn id(word: &str) -> Result<Id> {
    match Id::read(word.as_bytes()) {
        Ok(id) => Ok(id),
        Err(_) => bail!("no id: {word}"),
    }
}

/// A change that is to be made.
fn take(alloc: Global, factors: &mut Factors, words: &Words) -> Result<()> {
    match words.call {
        "" => Ok(()),
        "rules" => put(alloc, factors, words),
        "leave" => {
            factors.drop_user(&id(words.first)?);
            Ok(())
        }
        "fill" => fill(alloc, factors, words.first.parse::<u64>()?),
        _ => match changed(alloc, factors, words)? {
            Ok(()) => Ok(()),
            Err(_) => bail!("{} is refused", words.call),
        },
    }
}

/// `secret ID USER BASE32` adds a secret, and `drop ID` takes one out.
fn changed(alloc: Global, factors: &mut Factors, words: &Words) -> Result<Result<(), RowFault>> {
    match words.call {
        "secret" => {
            let secret = read_base32(alloc, words.third.as_bytes())?.context("no base32")?;
            Ok(factors.add_secret(SecretRow {
                id: id(words.first)?,
                user: id(words.second)?,
                secret,
            }))
        }
        "drop" => Ok(factors.drop_secret(&id(words.first)?)),
        _ => bail!("no call {}", words.call),
    }
}

/// `rules USER on|off HEX` puts rules.
fn put(alloc: Global, factors: &mut Factors, words: &Words) -> Result<()> {
    let row = MfaRow {
        user: id(words.first)?,
        enabled: words.second == "on",
        rules: Bytes::from_vec(hex::decode(alloc, words.third)?),
    };
    factors.rules_room()?;
    factors.put_rules(row);
    Ok(())
}

/// Adds so many secrets of one user, with numbers of six digits for ids, from 0.
fn fill(alloc: Global, factors: &mut Factors, count: u64) -> Result<()> {
    for number in 0..count {
        let name = format!(in alloc; "{number:06}")?;
        let row = SecretRow {
            id: id(name.as_str())?,
            user: id("filled")?,
            secret: Bytes::of(alloc, name.as_bytes())?,
        };
        if factors.add_secret(row).is_err() {
            bail!("{number} is refused");
        }
    }
    Ok(())
}

/// The answer to a question, or to a change that may be refused.
fn asked(alloc: Global, factors: &mut Factors, words: &Words) -> Result<String> {
    match words.call {
        "fits" => {
            let code = words.second.parse::<u32>()?;
            let moment = words.third.parse::<u64>()?;
            said(alloc, factors.fits(&id(words.first)?, code, moment))
        }
        "met" => {
            let methods = words.second.parse::<u8>()?;
            said(alloc, factors.met(&id(words.first)?, methods))
        }
        "ids" => listed(alloc, factors),
        "whose" => whose(alloc, factors, &id(words.first)?),
        _ => told(alloc, changed(alloc, factors, words)?),
    }
}

fn said(alloc: Global, holds: bool) -> Result<String> {
    let word = if holds { "yes" } else { "no" };
    Ok(String::from_str(alloc, word)?)
}

/// The ids of all secrets, each behind a blank.
fn listed(alloc: Global, factors: &Factors) -> Result<String> {
    let mut text = String::from_str(alloc, "ids")?;
    for id in factors.secret_ids()?.as_slice() {
        text.push(' ')?;
        text.push_str(id.as_str())?;
    }
    Ok(text)
}

/// The user and the bytes of a secret.
fn whose(alloc: Global, factors: &Factors, id: &Id) -> Result<String> {
    match factors.secret(id) {
        Some(row) => {
            let user = row.user.as_str();
            let secret = hex::encode(alloc, row.secret.as_slice())?;
            Ok(format!(in alloc; "{user} {secret}")?)
        }
        None => Ok(String::from_str(alloc, "none")?),
    }
}

fn told(alloc: Global, answer: Result<(), RowFault>) -> Result<String> {
    let word = match answer {
        Ok(()) => "done",
        Err(RowFault::Full(Kind::Secret)) => "full",
        Err(RowFault::IdTaken(_)) => "taken",
        Err(RowFault::Absent(Kind::Secret, _)) => "absent",
        Err(_) => "refused",
    };
    Ok(String::from_str(alloc, word)?)
}
