ghost use Rattle.std.specs.Prelude.{◌≡◌};
ghost use Rattle.ks_http.specs.Next.{next_of};

use crate::cause::HttpCause;
use crate::next::Next;
use ks_base::Memory;

/// Why no more requests come.
#[derive(Clone, Copy)]
pub enum Ending {
    /// The input ended between requests.
    End,
    /// The bytes that follow are no request.
    Bad(HttpCause),
    /// The input could not be read.
    ReadFault,
    /// There was no memory.
    Memory,
}

impl From<Memory> for Ending {
    ghost use Rattle.ks_http.specs.declared.ending.Ending.TheVariants as variants;

    ghost from_gives = { λ _ e. e ≡ variants.Memory };

    fn from(_error: Memory) -> Ending {
        Ending::Memory
    }
}

impl Ending {
    /// The answer from here on.
    pub fn next(self) -> Next
        ensures { result ≡ next_of self }
    {
        match self {
            Ending::End => Next::End,
            Ending::Bad(cause) => Next::Bad(cause),
            Ending::ReadFault => Next::ReadFault,
            Ending::Memory => Next::Memory,
        }
    }
}
