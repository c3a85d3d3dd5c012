//! A daybook answered: each line read as an entry, performed on the open book, and written with its answer.
#![tactic(auto)]

mod calls;
mod daybook;
mod journal;
mod lines;

pub use calls::perform;
pub use daybook::{DaybookError, answer_input};
pub use journal::DeskJournal;
