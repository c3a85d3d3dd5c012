//! The pages of a filing as text: one call reads the file, works its pages and writes the text.
#![tactic(auto)]

ghost use Rattle.std.specs.Prelude.{◌≡◌, ◌≤◌, map};
ghost use Rattle.filing.specs.Rows.{row_of as priced_row, rows_of};
ghost use Rattle.filed_pages.specs.Texts.{filing_text, page_line};
ghost use Rattle.page_text.specs.Outcomes.{Gives, printed};
ghost use Rattle.page_text.specs.Rows.{row_of as printed_row};

use filing::{PricedProject, PricedProjects, read_filing};
pub use page_text::LONGEST_TEXT;
use page_text::{PageRow, PageRows, write_refusal, write_rows};

/// The line of a priced project. No `From`: neither type is of this crate.
fn page_row(project: &PricedProject) -> PageRow
    ensures { printed_row result ≡ page_line (priced_row project.now) }
{
    PageRow {
        project_number: project.number,
        annual_expense_charge: project.columns.annual_expense_charge,
        annual_return_charge: project.columns.annual_return_charge,
        depreciation_expense: project.columns.depreciation_expense,
        annual_revenue_requirement: project.columns.annual_revenue_requirement,
    }
}

/// The lines of priced projects, in their order.
fn page_rows(projects: &PricedProjects) -> PageRows
    ensures { result ≡ map page_line (rows_of projects.now) }
{
    let projects = projects.as_slice();
    let mut rows = PageRows::new();
    for project in projects {
        rows.push(page_row(project)).unwrap();
    }
    rows
}

/// Writes the text of a filing at the start of the run and answers its length: a line for each
/// project and the line of the sums, or the line of a refusal. The bytes after it stay as found.
// It answers a length, by `Gives (printed ..)`: the run is the caller's fixed memory.
pub fn write_pages(file: &[u8], run: &mut [u8; LONGEST_TEXT]) -> usize
    ensures outcome { Gives (printed (filing_text file.now) run.old) result run.new }
    ensures within_the_run { result ≤ 4485 }
{
    match read_filing(file) {
        Ok(projects) => write_rows(run, &page_rows(&projects)),
        Err(refused) => write_refusal(run, refused.line, refused.refusal.number()),
    }
}
