/// The journal that a book is opened over.
#[derive(Clone, Copy, PartialEq, Eq, Debug)]
pub enum JournalKind {
    /// A table of places for this many participants.
    Table(u16),
    /// Room for this many records, 0 to 1,000,000.
    Entries(u32),
}
