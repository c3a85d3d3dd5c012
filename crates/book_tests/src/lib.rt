//! Tests of the book's calls, against docs/BOOK.md and numbers of the second program.
#![tactic(auto)]

#[cfg(test)]
mod call;
#[cfg(test)]
mod tests;
