//! A filing read line by line: a template's name, the figures of page 1 and the projects of page 2.
#![tactic(auto)]

mod fields;
mod filing;
mod pages;
mod priced_projects;
mod reader;
mod refusal;
mod sheet_lines;

pub use filing::Filing;
pub use filing::calls::{read_filing, read_pages};
pub use pages::Pages;
pub use priced_projects::{PricedProject, PricedProjects};
pub use reader::{FilingReader, LONGEST, Record};
pub use refusal::{LineRefusal, Refusal};
