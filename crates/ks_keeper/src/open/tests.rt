use super::*;
use crate::{KeepFault, Keeper};
use std::os::unix::fs::MetadataExt;
use std::test::Fail;

const FOLDER: &str = "ks_keeper_test";

const PATH: &str = "ks_keeper_test/journal.book";

fn told<K: Keeper>(keeper: &mut K, number: u64) -> Result<u8, KeepFault> {
    match keeper.read(number)? {
        Some(entry) => Ok(entry.as_slice().first().copied().unwrap_or(0)),
        None => Ok(255),
    }
}

fn kept<K: Keeper>(keeper: &mut K) -> Result<(), KeepFault> {
    keeper.set_header(b"first")?;
    keeper.keep(0, &[7])?;
    keeper.keep(1, &[8])?;
    keeper.keep(1, &[9])
}

#[test]
fn keeps_over_a_reopen_and_refuses_what_is_no_book(rt: HostRuntime) -> Result<(), Fail> {
    let _ = fs::remove_dir_all(&rt, FOLDER);
    fs::create_dir(&rt, FOLDER)?;
    let mut book = Book::open(&rt, PATH)?;
    kept(&mut book)?;
    assert!(rt; matches!(Book::open(&rt, PATH), Err(NotBook::Held)));
    drop(book);
    assert_eq!(rt; fs::metadata(&rt, PATH)?.mode() & 0o777, 0o600);
    let mut book = Book::open(&rt, PATH)?;
    assert_eq!(rt; told(&mut book, 0)?, 7);
    assert_eq!(rt; told(&mut book, 1)?, 9);
    assert_eq!(rt; told(&mut book, 2)?, 255);
    assert!(rt; book.header()?.is_some());
    drop(book);
    fs::write(&rt, "ks_keeper_test/empty.book", b"".as_slice())?;
    assert!(rt;
        matches!(
            Book::open(&rt, "ks_keeper_test/empty.book"),
            Err(NotBook::Empty)
        )
    );
    fs::write(&rt, "ks_keeper_test/text.book", b"no database".as_slice())?;
    assert!(rt;
        matches!(
            Book::open(&rt, "ks_keeper_test/text.book"),
            Err(NotBook::Database(_))
        )
    );
    fs::remove_dir_all(&rt, FOLDER)?;
    Ok(())
}
