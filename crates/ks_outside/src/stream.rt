ghost use Rattle.ks_outside.specs.Streams.{StreamState};

/// What contracts see of a source, of a sink, or of a link that is both.
pub trait Stream {
    ghost stream: { Self → StreamState };
}
