use crate::given_list::ListEntry;
use crate::journal_kind::JournalKind;

/// The kilowatt-hours of a participant and a month.
#[derive(Clone, Copy, PartialEq, Eq, Debug)]
pub struct MeterReading {
    pub participant: i64,
    pub month: i64,
    pub kwh: i64,
}

/// An entry of a daybook: one call on a book.
#[derive(Drop)]
pub enum Entry<'a> {
    Open { year: u16, journal: JournalKind },
    File { project: i64, requirement: i64 },
    Post { forecast: i64 },
    Bill(MeterReading),
    Resettle(MeterReading),
    Pay,
    State { project: i64, actual: i64 },
    Close(ListEntry<'a>),
    Look { project: i64 },
}
