//! What a keeper holds between two runs.

use ks_base::Bytes;
use std::alloc::Global;
use std::collections::BTreeMap;

/// A header, if there is one, and entries by number.
#[derive(Drop)]
pub struct Kept {
    pub header: Option<Bytes>,
    pub entries: BTreeMap<u64, Bytes>,
}

impl Kept {
    pub fn nothing(alloc: Global) -> Kept {
        Kept {
            header: None,
            entries: BTreeMap::new(alloc),
        }
    }
}
