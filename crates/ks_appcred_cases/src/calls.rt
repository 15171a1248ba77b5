//! The table of calls.

use anyhow::{Result, bail};
use ks_appcred::AppCreds;
use ks_base::{AppCredRow, Id, IdList, Kind, PasswordRow, RowFault, Text};
use ks_tables::{Case, read_rows};
use std::alloc::Global;
use std::rt::Files;

/// Makes each call of the table, and prints each whose answer is another, and then how many answers were the wanted ones.
pub fn try_table<R: Files + Print + AllocGlobal>(rt: &R) -> Result<()> {
    let mut creds = AppCreds::new(rt.alloc());
    let mut held: u64 = 0;
    for row in read_rows(rt, "calls")? {
        let line = row.line;
        let case = row.case();
        let answer = called(rt.alloc(), &mut creds, &case)?;
        if answer.as_str() == case.str(6)? {
            held = held.saturating_add(1);
        } else {
            println!(rt; "calls, line {line}: {answer}")?;
        }
    }
    println!(rt; "calls {held}")?;
    Ok(())
}

fn called(alloc: Global, creds: &mut AppCreds, case: &Case) -> Result<String> {
    match case.str(0)? {
        "add" => answered(alloc, &creds.add(row_of(alloc, case)?)),
        "drop" => answered(alloc, &creds.drop_row(&id(case.str(1)?)?)),
        "fill" => fill(alloc, creds, case.number(1)?),
        "drop_user" => {
            creds.drop_user(&id(case.str(1)?)?);
            standing(alloc, creds)
        }
        "drop_project" => {
            creds.drop_project(&id(case.str(1)?)?);
            standing(alloc, creds)
        }
        "drop_role" => {
            creds.drop_role(&id(case.str(1)?)?);
            standing(alloc, creds)
        }
        call => found(alloc, creds, call, case),
    }
}

/// What is found, without a change.
fn found(alloc: Global, creds: &AppCreds, call: &str, case: &Case) -> Result<String> {
    match call {
        "row" => shown(alloc, creds.row(&id(case.str(1)?)?)),
        "named" => {
            let name = Text::of(alloc, case.str(2)?)?;
            shown(alloc, creds.named(&id(case.str(1)?)?, &name))
        }
        "of_user" => listed(alloc, &creds.of_user(&id(case.str(1)?)?)?),
        "count" => Ok(format!(in alloc; "{}", creds.len())?),
        _ => bail!("no call {call}"),
    }
}

fn row_of(alloc: Global, case: &Case) -> Result<AppCredRow> {
    let mut roles = IdList::new(alloc);
    for role in case.str(5)?.split_whitespace() {
        roles.push(id(role)?)?;
    }
    row(
        alloc,
        id(case.str(1)?)?,
        case.str(2)?,
        case.str(3)?,
        case.str(4)?,
        roles,
    )
}

fn row(
    alloc: Global,
    of: Id,
    user: &str,
    name: &str,
    project: &str,
    roles: IdList,
) -> Result<AppCredRow> {
    Ok(AppCredRow {
        id: of,
        user: id(user)?,
        project: id(project)?,
        name: Text::of(alloc, name)?,
        description: Text::of(alloc, "")?,
        roles,
        secret: PasswordRow {
            salt: [0; 16],
            rounds: 1,
            digest: [0; 32],
        },
        expires: None,
        unrestricted: false,
    })
}

/// Adds so many credentials of one user, by their numbers from 0, and stops at the first that is refused.
fn fill(alloc: Global, creds: &mut AppCreds, count: u64) -> Result<String> {
    for number in 0..count {
        let word = format!(in alloc; "{number:06}")?;
        let made = row(
            alloc,
            id(word.as_str())?,
            "many",
            word.as_str(),
            "p",
            IdList::new(alloc),
        )?;
        let answer = creds.add(made);
        if answer.is_err() {
            return answered(alloc, &answer);
        }
    }
    Ok(String::from_str(alloc, "Done")?)
}

fn answered(alloc: Global, answer: &Result<(), RowFault>) -> Result<String> {
    match answer {
        Ok(()) => Ok(String::from_str(alloc, "Done")?),
        Err(RowFault::NameTaken(id)) => refused(alloc, "NameTaken", id),
        Err(RowFault::Full(kind)) => Ok(format!(in alloc; "Full({kind:?})")?),
        Err(RowFault::IdTaken(id)) => refused(alloc, "IdTaken", id),
        Err(RowFault::Absent(kind, id)) => absent(alloc, *kind, id),
        Err(RowFault::Prohibited) => Ok(String::from_str(alloc, "Prohibited")?),
        Err(RowFault::Memory) => bail!("out of memory"),
    }
}

fn refused(alloc: Global, word: &str, id: &Id) -> Result<String> {
    Ok(format!(in alloc; "{word}({})", id.as_str())?)
}

fn absent(alloc: Global, kind: Kind, id: &Id) -> Result<String> {
    Ok(format!(in alloc; "Absent({kind:?}, {})", id.as_str())?)
}

fn shown(alloc: Global, row: Option<&AppCredRow>) -> Result<String> {
    match row {
        Some(row) => Ok(format!(in alloc; "{} of {}", row.id.as_str(), row.user.as_str())?),
        None => Ok(String::from_str(alloc, "none")?),
    }
}

fn listed(alloc: Global, ids: &IdList) -> Result<String> {
    let mut words = String::new(alloc);
    for id in ids.as_slice() {
        push_word(&mut words, id.as_str())?;
    }
    Ok(words)
}

/// The ids of all that stand.
fn standing(alloc: Global, creds: &AppCreds) -> Result<String> {
    let mut words = String::new(alloc);
    for row in creds.rows() {
        push_word(&mut words, row.id.as_str())?;
    }
    Ok(words)
}

fn push_word(words: &mut String, word: &str) -> Result<()> {
    if !words.is_empty() {
        words.push(' ')?;
    }
    words.push_str(word)?;
    Ok(())
}

fn id(word: &str) -> Result<Id> {
    match Id::read(word.as_bytes()) {
        Ok(id) => Ok(id),
        Err(_) => bail!("`{word}` is no id"),
    }
}
