/// How far a book's year has come.
#[derive(Clone, Copy, PartialEq, Eq, Debug)]
pub enum State {
    /// Requirements are filed.
    Draft,
    /// The usage rate stands: 1 is 0.0001 dollars for a megawatt-hour.
    Posted(i64),
}
