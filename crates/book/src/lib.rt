//! A rate department's book: filings, the usage rate, bills, payments and the close of a year, over
//! any journal.
#![tactic(auto)]

mod book;
mod figures;
mod reading;
mod row;
mod row_table;
mod rules;

pub use book::Book;
