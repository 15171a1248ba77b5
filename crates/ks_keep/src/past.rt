use ks_machine::Entry;
use std::snapshot::Snapshot;

/// The entries that were made once more, in their order. It takes no memory: clauses alone speak of it.
#[derive(Drop)]
pub enum Past {
    Start,
    Then(Snapshot<Past>, Snapshot<Entry>),
}
