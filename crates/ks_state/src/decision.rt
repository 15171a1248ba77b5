use ks_checks::Needs;
use ks_machine::Reply;

/// What became of a call.
#[derive(Drop)]
pub enum Decision {
    /// It is answered.
    Done(Reply),
    /// These facts are lacking, and nothing has changed.
    Needs(Needs),
}
