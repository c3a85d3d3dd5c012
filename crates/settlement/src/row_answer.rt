/// A row as looking at it answers: dollars due and filed, cents paid and kept.
#[derive(Clone, Copy, PartialEq, Eq, Debug)]
pub struct RowAnswer {
    pub project: u32,
    pub due_now: i64,
    pub due_next: i64,
    pub paid: i64,
    pub kept: i64,
    pub requirement: Option<i64>,
    pub actual: Option<i64>,
}
