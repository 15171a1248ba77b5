use crate::{Memory, TryCopy};
use std::fmt;

/// The random bytes that a request drew.
#[derive(Clone, Copy)]
pub enum Drawn {
    /// It drew none.
    Unused,
    /// It drew these.
    Bytes([u8; 64]),
    /// The draw failed.
    Failed,
}

/// No printing shows the bytes: keys and salts are made of them.
impl fmt::Debug for Drawn {
    fn fmt<W: fmt::Write>(&self, f: &mut fmt::Formatter<W>) -> fmt::Result {
        f.write_str(match self {
            Drawn::Unused => "Unused",
            Drawn::Bytes(_) => "Bytes(..)",
            Drawn::Failed => "Failed",
        })
    }
}

/// What is noted of a request that was answered: enough to answer it again in the same way.
#[derive(Clone, Copy)]
pub struct Receipt {
    /// The number of the link on its desk, from 0.
    pub connection: u64,
    /// The number of the request on its link, from 0.
    pub request: u64,
    /// How many changes came before the event that decided it.
    pub changes: u64,
    /// The moment of that event, in whole seconds since 1970-01-01T00:00:00Z.
    pub moment: u64,
    pub draw: Drawn,
    /// The key folder failed when it was read for this request.
    pub folder: bool,
    /// Memory ended before the decision, so that the request made no change.
    pub memory: bool,
}

impl TryCopy for Receipt {
    fn copy(&self) -> Result<Receipt, Memory> {
        Ok(*self)
    }
}
