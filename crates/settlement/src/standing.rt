use crate::state::State;

/// Where a book stands: its year and state, money and till in cents, and how many rows it has.
#[derive(Clone, Copy, PartialEq, Eq, Debug)]
pub struct Standing {
    pub year: u16,
    pub state: State,
    pub money: i64,
    pub till: i64,
    pub rows: usize,
}
