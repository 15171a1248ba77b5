use ks_outside::Failed;
use std::error::Error;
use std::fmt;

/// The sink did not take the whole response: it has counted a fault, and the rest cannot follow.
#[derive(Clone, Copy, Debug, PartialEq, Eq)]
pub struct WriteFault;

impl From<Failed> for WriteFault {
    fn from(_: Failed) -> WriteFault {
        WriteFault
    }
}

impl fmt::Display for WriteFault {
    fn fmt<W: fmt::Write>(&self, f: &mut fmt::Formatter<W>) -> fmt::Result {
        write!(f, "the response could not be written")
    }
}

impl Error for WriteFault {}
