//! The printed pages as text: a line for each priced project and the line of the sums, or the line
//! of a refusal, at the start of a fixed run of bytes.
#![tactic(auto)]

mod field;
mod line;
mod page;
mod page_rows;
mod refusal;
mod refusal_line;
mod row;
mod written;

pub use page::{LONGEST_TEXT, write_rows};
pub use page_rows::PageRows;
pub use refusal::Refusal;
pub use refusal_line::write_refusal;
pub use row::PageRow;
