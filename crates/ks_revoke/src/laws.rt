//! What the definitions of this crate mean, as laws.
ghost use Rattle.std.specs.Prelude.{◌≡◌, ◌+◌, ◌<◌, ◌≤◌, ◌⊎◌, ℕ, List};
ghost use Rattle.ks_base.specs.declared.events.EventRow.{EventRow};
ghost use Rattle.ks_base.specs.declared.events.Holder.{Holder};
ghost use Rattle.ks_base.specs.Revocation.{is_revoked, live, window, kept_for};
ghost use Rattle.ks_base.specs.Tables.{Among};
ghost use Rattle.ks_revoke.specs.Histories.{Kept, History, Stands};
ghost use Rattle.ks_revoke.specs.Marks.{AreMarks, IsMarkOf};

/// Each event of a whole history is kept, or past its time; and no other event is kept.
#[tactic(auto, using(crate::proofs::LawLemmas::kept_or_past, crate::proofs::LawLemmas::kept_was_added))]
pub fn events_are_kept_or_past()
    ensures kept { (kept : Kept) (history : History) (event : EventRow) → Stands kept history → Among history.events event → Among kept.events event ⊎ (event.moment + history.life + kept_for < history.high) }
    ensures added { (kept : Kept) (history : History) (event : EventRow) → Stands kept history → Among kept.events event → Among history.events event }
{}

/// Which tokens the live events revoke, of those that may still be asked for, is what the whole history says.
#[tactic(auto, using(crate::proofs::TestLemmas::live_suffice))]
pub fn live_events_suffice()
    ensures { (life high : ℕ) (events : List EventRow) (holder : Holder) (issued : ℕ) → high < issued + life + window → is_revoked (live life high events) holder issued ≡ is_revoked events holder issued }
{}

/// Each thing that an event names has one mark, and the marks of events are one list.
#[tactic(auto, using(crate::proofs::LawLemmas::one_mark))]
pub fn marks_are_determined()
    ensures mark { (events rows : List EventRow) (event : EventRow) → AreMarks events rows → Among events event → (row : EventRow) × IsMarkOf event rows row }
    ensures list { (events rows others : List EventRow) → AreMarks events rows → AreMarks events others → rows ≡ others }
{}
