/// A call of a desk, as a desk that tells its calls notes it, whether it then failed or not.
#[derive(Clone, Copy, Debug, PartialEq, Eq)]
pub enum DeskCall {
    /// Room was to be made for a receipt.
    Ready,
    /// The clock was read.
    Reading,
    /// A piece of so many bytes was to be filled.
    Fill(usize),
    /// A receipt was noted.
    Note,
}
