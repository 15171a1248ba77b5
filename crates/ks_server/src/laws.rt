//! What holds of exchanges in order, whatever they are.
ghost use Rattle.ks_server.specs.Laws.{MovesInOrder, OrderStays, ReceiptsArePlaced, SessionsStay, WorkersArePlaced};

/// What a pass saw and made is in the order of one journal, and stays so as the journal goes on. Each receipt names a
/// place in it, between what was seen before and all that comes later. The call does nothing: its contract is the law.
pub fn exchanges_are_in_order()
    ensures moves { MovesInOrder }
    ensures places { ReceiptsArePlaced }
    ensures stays { OrderStays }
{}

/// The bytes of a session, and how it ended, read the same off each later journal, whatever the faults of keeping are. The
/// call does nothing: its contract is the law.
pub fn sessions_stay<F>()
    ensures { SessionsStay F }
{}

/// What workers did on links of any kind, whatever the faults of keeping are: each receipt names a place in the journal
/// of the pass at the end, and the highest moment there is not before the reading of any command that was decided. The
/// call does nothing: its contract is the law.
pub fn workers_are_placed<F, L>()
    ensures { WorkersArePlaced F L }
{}
