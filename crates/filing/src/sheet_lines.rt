ghost use Rattle.std.specs.Prelude.{◌≡◌, pos, IfOk};
ghost use Rattle.questions.specs.Questions.{within as is_within};
ghost use Rattle.filing.specs.Filed.{IsPricedOn, Leaves, entering, figure_taken, page_one_at, priced_row, seen};
ghost use Rattle.filing.specs.Rows.{row_of};

use crate::fields::{FiledFigure, FiledProject, read_figure};
use crate::priced_projects::PricedProject;
use crate::refusal::Refusal;
use sheets::{OpenSheet, Template, WorkedSheet};

/// The largest project number.
const LARGEST_NUMBER: i64 = 99_999_999;

/// Enters the figure of an F line.
pub(crate) fn enter_figure<T: Template>(
    sheet: &mut OpenSheet<T>,
    line: &[u8; 56],
) -> Result<(), Refusal>
    ensures { Leaves (figure_taken T.rules sheet.old line.now) sheet.old result sheet.new }
{
    let FiledFigure { label, amount } = read_figure(line)?;
    sheet.enter_labelled(label, amount)?;
    Ok(())
}

/// Finishes page 1.
pub(crate) fn finish<T: Template>(sheet: OpenSheet<T>) -> Result<WorkedSheet<T>, Refusal>
    ensures { result ≡ page_one_at T.rules (entering sheet) }
{
    Ok(sheet.finish()?)
}

/// Whether this can be a project's number.
fn number_fits(number: i64) -> bool
    ensures { result ≡ is_within (pos 1) (pos 99999999) number }
{
    (1..=LARGEST_NUMBER).contains(&number)
}

/// Prices a filed project.
pub(crate) fn price<T: Template>(
    sheet: &WorkedSheet<T>,
    filed: FiledProject,
) -> Result<PricedProject, Refusal>
    ensures prices_as_the_filing_says { seen row_of result ≡ priced_row T.rules sheet.now.factors filed }
    ensures has_the_columns_priced_on_the_sheet { IfOk result (λ p. IsPricedOn T.rules sheet.now.factors (row_of p)) }
{
    let FiledProject { number, project } = filed;
    if !number_fits(number) {
        return Err(Refusal::ProjectNumberOutOfRange);
    }
    let columns = sheet.price(project)?;
    Ok(PricedProject {
        number,
        project,
        columns,
    })
}
