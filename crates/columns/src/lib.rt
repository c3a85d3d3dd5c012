//! Numbers in columns: reading a right-justified number from its columns, and writing one into
//! them. Both take columns of any width.
#![tactic(auto)]

mod reading;
mod refusal;
mod writing;

pub use reading::{after_spaces, read_number};
pub use refusal::Refusal;
pub use writing::write_number;
