//! An answer of a book as a line of text.
#![tactic(auto)]

mod amount;
mod answer;

pub use answer::Answer;
