//! The rows of a table, and what holds of them.

use crate::case::Case;
use crate::cells::read_cells;
use anyhow::{Result, ensure};
use std::alloc::Global;
use std::fs;
use std::rt::Files;

/// The cells of a line, and its number.
#[derive(Drop)]
pub struct Row {
    pub line: usize,
    pub cells: Vec<Vec<u8>>,
}

impl Row {
    /// All cells of this row.
    pub fn case(&self) -> Case<'_> {
        Case::new(self.cells.as_slice())
    }

    /// The cells but for the last one, and the answer that is wanted, which is that one.
    fn parts(&self) -> (Case<'_>, &[u8]) {
        match self.cells.as_slice() {
            [given @ .., wanted] => (Case::new(given), wanted.as_slice()),
            [] => (self.case(), &[]),
        }
    }
}

/// The rows of the table of this name, behind its heading and each with as many cells as that has. The table is the file
/// with this name and `.txt` where the program runs.
pub fn read_rows<R: Files + AllocGlobal>(rt: &R, name: &str) -> Result<Vec<Row>> {
    let file = read_file(rt, name)?;
    let rows = rows_of(rt.alloc(), name, file.as_str());
    drop(file);
    rows
}

fn read_file<R: Files + AllocGlobal>(rt: &R, name: &str) -> Result<String> {
    let path = format!(in rt.alloc(); "{name}.txt")?;
    let file = fs::read_to_string(rt, path.as_str());
    drop(path);
    Ok(file?)
}

fn rows_of(alloc: Global, name: &str, text: &str) -> Result<Vec<Row>> {
    let mut rows = Vec::new(alloc);
    let mut columns = 0;
    for (at, line) in text.lines().enumerate() {
        if line.is_empty() || line.starts_with('#') {
            continue;
        }
        if columns == 0 {
            columns = line.split('|').count();
            continue;
        }
        rows.push(row_of(alloc, name, at.saturating_add(1), line, columns)?)?;
    }
    Ok(rows)
}

fn row_of(alloc: Global, name: &str, line: usize, text: &str, columns: usize) -> Result<Row> {
    let count = text.split('|').count();
    ensure!(count == columns, "{name}, line {line}: {count} cells");
    let cells = read_cells(alloc, text)?;
    Ok(Row { line, cells })
}

/// Tries each case of the table of this name, and prints each whose answer is another, and then how many held.
pub fn try_table<R: Files + Print + AllocGlobal, F: Fn(Global, &Case) -> Result<String>>(
    rt: &R,
    name: &str,
    answer: F,
) -> Result<()>
    requires { F.IsAlwaysCallable answer }
{
    let rows = read_rows(rt, name)?;
    let held = try_rows(rt, name, rows.as_slice(), &answer);
    drop(rows);
    println!(rt; "{name} {}", held?)?;
    Ok(())
}

/// How many of these cases hold.
fn try_rows<R: Print + AllocGlobal, F: Fn(Global, &Case) -> Result<String>>(
    rt: &R,
    name: &str,
    rows: &[Row],
    answer: &F,
) -> Result<u64>
    requires { F.IsAlwaysCallable answer.now }
{
    let mut held: u64 = 0;
    for row in rows {
        if holds(rt, name, row, answer)? {
            held = held.saturating_add(1);
        }
    }
    Ok(held)
}

/// Whether the answer to a case is the one that is wanted. Another one is printed.
fn holds<R: Print + AllocGlobal, F: Fn(Global, &Case) -> Result<String>>(
    rt: &R,
    name: &str,
    row: &Row,
    answer: &F,
) -> Result<bool>
    requires { F.IsAlwaysCallable answer.now }
{
    let (case, wanted) = row.parts();
    let given = answered(rt.alloc(), &case, answer)?;
    let is_wanted = is_answer(given.as_bytes(), wanted);
    if !is_wanted {
        print_other(rt, name, row.line, wanted, given.as_str())?;
    }
    Ok(is_wanted)
}

/// What is answered to a case, or the fault of the call.
fn answered<F: Fn(Global, &Case) -> Result<String>>(
    alloc: Global,
    case: &Case,
    answer: &F,
) -> Result<String>
    requires { F.IsAlwaysCallable answer.now }
{
    match answer(alloc, case) {
        Ok(given) => Ok(given),
        Err(error) => Ok(format!(in alloc; "error: {error}")?),
    }
}

fn print_other<R: Print>(
    rt: &R,
    name: &str,
    line: usize,
    wanted: &[u8],
    given: &str,
) -> Result<()> {
    let wanted = std::str::from_utf8(wanted)?;
    println!(rt; "{name}, line {line}: wanted `{wanted}`, got `{given}`")?;
    Ok(())
}

fn is_answer(given: &[u8], wanted: &[u8]) -> bool {
    match wanted.strip_suffix(b"..".as_slice()) {
        Some(front) => given.starts_with(front),
        None => given == wanted,
    }
}
