//! The lines of a daybook: a line's text to its entry.
#![tactic(auto)]

mod entry;
mod given_list;
mod journal_kind;
mod line;
mod numbers;
mod reading;
mod words;

pub use entry::{Entry, MeterReading};
pub use given_list::{GivenList, GivenRates, ListEntry};
pub use journal_kind::JournalKind;
pub use line::{Line, is_passed_over, read_line};
