//! Journals: the kilowatt-hours held under each pair of a participant and a month, and the pairs that
//! have a place. The trait, and two journals over a run that is handed in.
#![tactic(auto)]

mod entry_journal;
mod journal;
mod refusal;
mod table_journal;

pub use entry_journal::{Entry, EntryJournal};
pub use journal::{Journal, MOST_KWH};
pub use refusal::Refusal;
pub use table_journal::TableJournal;
