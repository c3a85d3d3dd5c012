/// A project's true-ups due this year and next year, in dollars, and the cents that whole dollars
/// left over.
#[derive(Clone, Copy, PartialEq, Eq, Debug)]
pub struct Account {
    pub due_now: i64,
    pub due_next: i64,
    pub kept: i64,
}

/// What is filed and stated for the year, in dollars.
#[derive(Clone, Copy, PartialEq, Eq, Debug)]
pub struct Filed {
    pub requirement: Option<i64>,
    pub actual: Option<i64>,
}
