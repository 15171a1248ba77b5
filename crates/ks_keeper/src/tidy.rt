//! Whether what the tables of a book hold is tidy.

use sqlite::{Alter, Connection, Error, params};

/// Why what the tables hold is not tidy.
#[derive(Clone, Copy)]
pub(crate) enum Untidy {
    /// No entry has this number, and one behind it stands.
    Gap(u64),
    /// Entries stand, and no header.
    NoHeader,
    /// An entry has a number below 0.
    OtherNumbers,
}

/// Whether a statement shows a row.
fn shows<S: Alter>(conn: &mut Connection<S>, sql: &str, number: i64) -> Result<bool, Error> {
    Ok(!conn.query_all(sql, params![number])?.is_empty())
}

/// The first number from 0 on that no entry has, where one behind it has an entry. Each number is looked up by itself, since
/// a statement that shows many rows holds them all.
fn first_gap<S: Alter>(conn: &mut Connection<S>) -> Result<Option<u64>, Error> {
    for number in 0..i64::MAX {
        if !shows(conn, "SELECT 0 FROM entry WHERE id = ?1", number)? {
            let has_more = shows(conn, "SELECT 0 FROM entry WHERE id > ?1 LIMIT 1", number)?;
            return Ok(has_more.then_some(number.unsigned_abs()));
        }
    }
    Ok(None)
}

/// Why what the tables hold is not tidy, where it is not.
pub(crate) fn untidiness<S: Alter>(conn: &mut Connection<S>) -> Result<Option<Untidy>, Error> {
    if shows(conn, "SELECT 0 FROM entry WHERE id < ?1 LIMIT 1", 0)? {
        return Ok(Some(Untidy::OtherNumbers));
    }
    let has_entries = shows(conn, "SELECT 0 FROM entry WHERE id >= ?1 LIMIT 1", 0)?;
    if has_entries && !shows(conn, "SELECT 0 FROM header WHERE id = ?1", 0)? {
        return Ok(Some(Untidy::NoHeader));
    }
    Ok(first_gap(conn)?.map(Untidy::Gap))
}
