//! What changes of tables answer, without the ids that a refusal names.

use ks_base::{CatalogFault, Kind, RowFault, TreeFault, TrustFault};
use ks_revoke::RevokeFault;

#[derive(Clone, Copy, Debug)]
pub enum Answer {
    Done,
    /// The row stands already.
    Stands,
    Full(Kind),
    Absent(Kind),
    /// So many ids are listed.
    Listed(usize),
    NameTaken,
    IdTaken,
    /// Any other refusal.
    Refused,
}

pub fn of_tree(answer: Result<(), TreeFault>) -> Answer {
    match answer {
        Ok(()) => Answer::Done,
        Err(TreeFault::Full(kind)) => Answer::Full(kind),
        Err(TreeFault::NameTaken(_)) => Answer::NameTaken,
        Err(TreeFault::IdTaken(_)) => Answer::IdTaken,
        Err(_) => Answer::Refused,
    }
}

pub fn of_row(answer: Result<(), RowFault>) -> Answer {
    match answer {
        Ok(()) => Answer::Done,
        Err(fault) => of_new(Err(fault)),
    }
}

/// Of an addition that says whether the row is new.
pub fn of_new(answer: Result<bool, RowFault>) -> Answer {
    match answer {
        Ok(true) => Answer::Done,
        Ok(false) => Answer::Stands,
        Err(RowFault::Full(kind)) => Answer::Full(kind),
        Err(RowFault::Absent(kind, _)) => Answer::Absent(kind),
        Err(RowFault::NameTaken(_)) => Answer::NameTaken,
        Err(RowFault::IdTaken(_)) => Answer::IdTaken,
        Err(_) => Answer::Refused,
    }
}

pub fn of_trust(answer: Result<(), TrustFault>) -> Answer {
    match answer {
        Ok(()) => Answer::Done,
        Err(TrustFault::Full(kind)) => Answer::Full(kind),
        Err(TrustFault::IdTaken(_)) => Answer::IdTaken,
        Err(_) => Answer::Refused,
    }
}

pub fn of_catalog(answer: Result<(), CatalogFault>) -> Answer {
    match answer {
        Ok(()) => Answer::Done,
        Err(CatalogFault::Full(kind)) => Answer::Full(kind),
        Err(CatalogFault::Absent(kind, _)) => Answer::Absent(kind),
        Err(CatalogFault::IdTaken(_)) => Answer::IdTaken,
        Err(CatalogFault::HasChildren(_) | CatalogFault::Memory) => Answer::Refused,
    }
}

pub fn of_event(answer: Result<(), RevokeFault>) -> Answer {
    match answer {
        Ok(()) => Answer::Done,
        Err(RevokeFault::Full(kind)) => Answer::Full(kind),
        Err(RevokeFault::Memory) => Answer::Refused,
    }
}
