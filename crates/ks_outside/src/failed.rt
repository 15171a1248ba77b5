use std::error::Error;
use std::fmt;

/// A fault of the outside: the object that was asked has counted one more.
#[derive(Clone, Copy, Debug, PartialEq, Eq)]
pub struct Failed;

impl fmt::Display for Failed {
    fn fmt<W: fmt::Write>(&self, f: &mut fmt::Formatter<W>) -> fmt::Result {
        write!(f, "a fault of the outside")
    }
}

impl Error for Failed {}
