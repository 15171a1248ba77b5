/// A table of a book.
#[derive(Clone, Copy)]
pub enum Shelf {
    /// The entries, by number.
    Entries,
    /// The header, at the number 0.
    Header,
}
