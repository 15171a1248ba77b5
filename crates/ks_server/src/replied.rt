ghost use Rattle.std.specs.Prelude.{◌≡◌};
ghost use Rattle.ks_service.specs.Called.{is_memory};

use ks_machine::{Cause, Reply};
use ks_state::Kept;

/// What is to be told of a request.
#[derive(Drop)]
pub enum Replied<F> {
    Reply(Reply),
    /// Nothing, since changes could not be kept.
    KeeperFault(F),
    /// That there is no memory.
    Memory,
}

impl<F: Drop> Replied<F> {
    ghost use Rattle.ks_server.specs.steps.Answers.{told_by, told_where};

    /// What is to be told of a reply, by what became of the changes that were not kept before it.
    pub fn of(kept: Kept<F>, reply: Reply) -> Replied<F>
        ensures { result ≡ told_by kept reply }
    {
        match kept {
            Kept::Yes => Replied::kept(reply),
            Kept::Fault(why) => {
                drop(reply);
                Replied::KeeperFault(why)
            }
            Kept::Memory => {
                drop(reply);
                Replied::Memory
            }
        }
    }

    /// What is to be told of a reply where all changes are kept.
    fn kept(reply: Reply) -> Replied<F>
        ensures { result ≡ told_where (is_memory reply) reply }
    {
        if is_memory(&reply) {
            drop(reply);
            return Replied::Memory;
        }
        Replied::Reply(reply)
    }
}

/// Whether a reply says that there was no memory.
pub fn is_memory(reply: &Reply) -> bool
    ensures { result ≡ is_memory reply.now }
{
    matches!(reply, Reply::Refused(Cause::Memory))
}
