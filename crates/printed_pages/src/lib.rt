//! Page 1 and page 2 of Attachment MM and Attachment CC as a person reads them.
#![tactic(auto)]

mod filed;
mod layout;
mod pages;

pub use filed::show_filing;
pub use layout::Printed;
pub use pages::{Row, print_pages};
