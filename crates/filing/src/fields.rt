ghost use Rattle.std.specs.Prelude.{◌≡◌, ◌≤◌, length, Ok, Err};
ghost use Rattle.filing.specs.Fields.{AnswersTheLabelAndAmount, blank, figure_on, label_in, named, number_in, project_on};

use crate::refusal::Refusal;
use columns::{after_spaces, read_number};
use sheets::Project;

/// A figure of page 1 as filed: the label of its line and the amount.
#[derive(Clone, Copy)]
pub(crate) struct FiledFigure<'a> {
    pub(crate) label: &'a [u8],
    pub(crate) amount: i64,
}

/// A project of page 2 as filed.
#[derive(Clone, Copy)]
pub(crate) struct FiledProject {
    pub(crate) number: i64,
    pub(crate) project: Project,
}

/// Whether there are only spaces.
pub(crate) fn is_blank(columns: &[u8]) -> bool
    ensures { result ≡ blank columns.now }
{
    after_spaces(columns).is_empty()
}

/// Whether there is some byte, and none is a space.
fn is_name(text: &[u8]) -> bool
    ensures { result ≡ named text.now }
{
    !text.is_empty() && !text.contains(&b' ')
}

/// The label that a field holds, right-justified after spaces.
fn label_in(field: &[u8]) -> Result<&[u8], Refusal>
    ensures { elim result [ Ok label ↦ label_in field.now ≡ Ok label.now | Err why ↦ label_in field.now ≡ Err why ] }
{
    let label = after_spaces(field);
    if !is_name(label) {
        return Err(Refusal::MalformedField);
    }
    Ok(label)
}

/// The number that a field holds, right-justified after spaces.
fn number_in(field: &[u8]) -> Result<i64, Refusal>
    requires { length field.now ≤ 12 }
    ensures { result ≡ number_in field.now }
{
    // a proved cast: try_from would ask at run time what 12 columns already keep
    Ok(read_number(field)? as i64)
}

/// The fields of an F line.
pub(crate) fn read_figure(line: &[u8; 56]) -> Result<FiledFigure, Refusal>
    ensures { AnswersTheLabelAndAmount result (figure_on line.now) }
{
    let label = label_in(&line[1..4])?;
    let amount = number_in(&line[4..16])?;
    if !is_blank(&line[16..56]) {
        return Err(Refusal::MalformedField);
    }
    Ok(FiledFigure { label, amount })
}

/// The fields of a P line.
pub(crate) fn read_project(line: &[u8; 56]) -> Result<FiledProject, Refusal>
    ensures { result ≡ project_on line.now }
{
    let number = number_in(&line[1..12])?;
    let gross_plant = number_in(&line[12..24])?;
    let accumulated_depreciation = number_in(&line[24..36])?;
    let depreciation_expense = number_in(&line[36..48])?;
    if !is_blank(&line[48..56]) {
        return Err(Refusal::MalformedField);
    }
    Ok(FiledProject {
        number,
        project: Project {
            gross_plant,
            accumulated_depreciation,
            depreciation_expense,
        },
    })
}
