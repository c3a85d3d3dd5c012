//! Tests of the formats: numbers in columns, filings and the text of their pages, the lines of a daybook and their answers.
#![tactic(auto)]

#[cfg(test)]
mod answer_texts;
#[cfg(test)]
mod filings;
#[cfg(test)]
mod lines;
#[cfg(test)]
mod numbers_in_columns;
#[cfg(test)]
mod page_texts;
