/// How long a link is served.
#[derive(Clone, Copy)]
pub enum Service {
    /// Until its connection ends, or rests between two requests.
    UntilRest,
    /// Until its connection ends.
    ToEnd,
}
