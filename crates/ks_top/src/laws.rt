//! What holds of every run. `Link` is the type of the desks' links, `Seat` that of a desk with its folder, and `K` that of a
//! keeper. The calls do nothing: their contracts are the laws.
ghost use Rattle.ks_keep.specs.Books.{seen_by};
ghost use Rattle.ks_top.specs.Laws.{
  ChangesAreDetermined,
  CommandsComplete,
  ConnectionsComplete,
  DeskFaultsAreCounted,
  RefusedEverAfter,
  RequestsComplete,
  RestartForgetsNothing,
  ToldIsKept,
};

use ks_keeper::Keeper;

/// Where nothing outside failed, a command ended whole, or for want of memory, or because its words or what it read is refused,
/// or since changes could not be kept, which the call that keeps them counts.
pub fn commands_complete<Link, Seat, K: Keeper>()
    ensures { CommandsComplete Link Seat (seen_by K.kept K.whole K.faults) }
{}

/// Where neither end of its link failed, a connection of `talk` or of `serve` ended with its input, with a request or bytes
/// that end it, for want of memory, or since changes could not be kept.
pub fn connections_complete()
    ensures { ConnectionsComplete }
{}

/// A command that ended for a fault of its desks had it counted: an accept's where it opened an identity, and else one of the
/// first desk's random bytes.
pub fn desk_faults_are_counted<Link, Seat, K: Keeper>()
    ensures { DeskFaultsAreCounted Link Seat (seen_by K.kept K.whole K.faults) }
{}

/// The changes of a run are determined by the front with which it began, by the bytes that its links told, by the readings of its desks and by
/// what their folders hold, with the receipts, which have the random bytes, what failed, and the places in the journal.
pub fn changes_are_determined<Link, Seat, K: Keeper>()
    ensures { ChangesAreDetermined Link Seat (seen_by K.kept K.whole K.faults) }
{}

/// Where all checks of a call pass at its exchange's front, with room, a free id and nothing that failed outside, the exchange
/// has the call's Ok reply, and makes its change unless there was no memory.
pub fn requests_complete()
    ensures { RequestsComplete }
{}

/// A token that an exchange ended, with memory, is told by no exchange that has seen this; where the caller's own token is
/// valid, the reply is the refusal of the subject's, a 404.
pub fn refused_ever_after<Link, Seat, K: Keeper>()
    ensures { RefusedEverAfter Link Seat (seen_by K.kept K.whole K.faults) }
{}

/// Each change that a response can show which was told stands with the keeper, where that is whole, and so does each before
/// it.
pub fn told_is_kept<Link, Seat, K: Keeper>()
    ensures { ToldIsKept Link Seat (seen_by K.kept K.whole K.faults) }
{}

/// Who goes on from what a run left with its keeper has the first of that run's changes, all that count as kept at least.
pub fn restart_forgets_nothing<Link, Seat, K: Keeper>()
    ensures { RestartForgetsNothing Link Seat (seen_by K.kept K.whole K.faults) }
{}
