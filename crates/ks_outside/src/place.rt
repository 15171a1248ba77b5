/// Where a worker stands when a gate is reached.
#[derive(Clone, Copy)]
pub enum Place {
    /// It is about to open an envelope.
    Opening,
    /// It is about to derive a key from a password.
    Deriving,
    /// It is about to take the turn.
    BeforeHold,
}

/// What a worker comes to at some places. The program's does nothing; a test's may hold the worker.
pub trait Gate {
    fn at(&self, place: Place);
}

/// The gate that does nothing.
#[derive(Clone, Copy)]
pub struct Open;

impl Gate for Open {
    fn at(&self, _place: Place) {}
}
