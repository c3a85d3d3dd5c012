#![tactic(auto)]

mod attachment_cc;
mod attachment_mm;
mod elements;
mod factors;
mod figures;
mod open_sheet;
mod page_one;
mod pricing;
mod refusal;
mod template;
mod worked_sheet;

pub use attachment_cc::{AttachmentCc, CcLine};
pub use attachment_mm::{AttachmentMm, MmLine};
pub use elements::{Elements, ExpenseElements, ReturnElements, TransmissionOm};
pub use factors::{ExpenseFactors, Factors, ReturnFactors};
pub use figures::{Figure, Figures};
pub use open_sheet::OpenSheet;
pub use pricing::{Columns, Project};
pub use refusal::Refusal;
pub use template::Template;
pub use worked_sheet::WorkedSheet;
