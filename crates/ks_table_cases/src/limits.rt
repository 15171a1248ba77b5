//! The table of calls on tables that are filled.

use crate::answers::Answer;
use crate::rows::Pair;
use crate::tables::Tables;
use anyhow::{Result, bail};
use ks_base::Kind;
use ks_tables::{Case, read_rows};
use std::alloc::Global;
use std::rt::Files;

/// Makes each call of the table, and prints each whose answer is another, and then how many answers were the wanted ones.
pub fn try_table<R: Files + Print + AllocGlobal>(rt: &R) -> Result<()> {
    let mut tables = Tables::new(rt.alloc());
    let mut held: u64 = 0;
    for row in read_rows(rt, "limits")? {
        let line = row.line;
        match difference(rt.alloc(), &mut tables, &row.case())? {
            None => held = held.saturating_add(1),
            Some(answer) => println!(rt; "limits, line {line}: {answer:?}")?,
        }
    }
    println!(rt; "limits {held}")?;
    Ok(())
}

/// What the call of a case answers, where that is not what is wanted.
fn difference(alloc: Global, tables: &mut Tables, case: &Case) -> Result<Option<Answer>> {
    let answer = called(alloc, tables, case)?;
    let said = format!(in alloc; "{answer:?}")?;
    Ok((said.as_str() != case.str(4)?).then_some(answer))
}

fn called(alloc: Global, tables: &mut Tables, case: &Case) -> Result<Answer> {
    let call = case.str(1)?;
    if call == "advance" {
        tables.advance(case.number(2)?);
        return Ok(Answer::Done);
    }
    let kind = kind(case.str(0)?)?;
    if call == "fill" {
        return fill(alloc, tables, kind, case.number(2)?);
    }
    let pair = Pair::read(case.str(2)?, case.str(3)?)?;
    match call {
        "add" => tables.add(kind, &pair),
        "remove" => tables.remove(kind, &pair),
        "list" => tables.list(kind, &pair),
        _ => bail!("no call {call}"),
    }
}

fn kind(word: &str) -> Result<Kind> {
    match word {
        "domain" => Ok(Kind::Domain),
        "user" => Ok(Kind::User),
        "group" => Ok(Kind::Group),
        "member" => Ok(Kind::Member),
        "role" => Ok(Kind::Role),
        "implication" => Ok(Kind::Implication),
        "grant" => Ok(Kind::Grant),
        "trust" => Ok(Kind::Trust),
        "revocation" => Ok(Kind::Event),
        "region" => Ok(Kind::Region),
        "service" => Ok(Kind::Service),
        "endpoint" => Ok(Kind::Endpoint),
        _ => bail!("no rows of {word} are made"),
    }
}

/// Adds so many rows of the kind, by their numbers from 0, and stops at the first that is refused or stands. Memberships
/// come in one go, with users and groups of their own.
fn fill(alloc: Global, tables: &mut Tables, kind: Kind, count: u64) -> Result<Answer> {
    if matches!(kind, Kind::Member) {
        tables.gather(count)?;
        return Ok(Answer::Done);
    }
    for number in 0..count {
        let pair = match kind {
            Kind::Implication | Kind::Grant => Pair::related(alloc, number)?,
            Kind::Endpoint => Pair::served(alloc, number)?,
            _ => Pair::numbered(alloc, number)?,
        };
        let answer = tables.add(kind, &pair)?;
        if !matches!(answer, Answer::Done) {
            return Ok(answer);
        }
    }
    Ok(Answer::Done)
}
