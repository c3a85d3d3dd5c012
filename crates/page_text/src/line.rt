ghost use Rattle.std.specs.Prelude.{◌≡◌, ◌+◌, ◌≤◌, ◌++◌, length, map};
ghost use Rattle.page_text.specs.Fields.{fields_text, fields_width, newline};
ghost use Rattle.page_text.specs.Lines.{line_fields, line_text, sums_line, sums_of};
ghost use Rattle.page_text.specs.Outcomes.{Gives, printed};
ghost use Rattle.page_text.specs.Rows.{row_of};

use crate::field::Field;
use crate::page_rows::PageRows;
use crate::row::PageRow;
use crate::written::{Written, write_all};

/// How wide the project number's columns are.
const PROJECT_COLUMNS: usize = 12;

/// How wide each amount's columns are.
const AMOUNT_COLUMNS: usize = 14;

/// The fields of a row's line, from the left.
fn row_fields(row: &PageRow) -> [Field; 5]
    ensures { result ≡ line_fields (row_of row.now) }
{
    [
        Field::in_columns::<PROJECT_COLUMNS>(row.project_number),
        Field::in_columns::<AMOUNT_COLUMNS>(row.annual_expense_charge),
        Field::in_columns::<AMOUNT_COLUMNS>(row.annual_return_charge),
        Field::in_columns::<AMOUNT_COLUMNS>(row.depreciation_expense),
        Field::in_columns::<AMOUNT_COLUMNS>(row.annual_revenue_requirement),
    ]
}

/// The sums of the rows' amounts, in dollars.
#[derive(Clone, Copy)]
struct Sums {
    annual_expense_charge: i64,
    annual_return_charge: i64,
    depreciation_expense: i64,
    annual_revenue_requirement: i64,
}

/// Adds up the amounts of rows.
fn add_up(rows: &[PageRow]) -> Sums
    requires at_most_64_rows { length rows.now ≤ 64 }
    ensures { sums_line result ≡ sums_of (map row_of rows.now) }
{
    let mut sums = Sums {
        annual_expense_charge: 0,
        annual_return_charge: 0,
        depreciation_expense: 0,
        annual_revenue_requirement: 0,
    };
    for row in rows {
        sums.annual_expense_charge += row.annual_expense_charge;
        sums.annual_return_charge += row.annual_return_charge;
        sums.depreciation_expense += row.depreciation_expense;
        sums.annual_revenue_requirement += row.annual_revenue_requirement;
    }
    sums
}

/// The fields of the line of the sums: project number 0 and the sum of each column.
#[tactic(auto, using(crate::proofs::Adding::sums_small))]
fn sums_fields(rows: &PageRows) -> [Field; 5]
    ensures { result ≡ line_fields (sums_of rows.now) }
{
    let sums = add_up(rows.as_slice());
    [
        Field::in_columns::<PROJECT_COLUMNS>(0),
        Field::in_columns::<AMOUNT_COLUMNS>(sums.annual_expense_charge),
        Field::in_columns::<AMOUNT_COLUMNS>(sums.annual_return_charge),
        Field::in_columns::<AMOUNT_COLUMNS>(sums.depreciation_expense),
        Field::in_columns::<AMOUNT_COLUMNS>(sums.annual_revenue_requirement),
    ]
}

/// Writes fields and a newline at the start of the bytes; answers how long they are.
// `Gives (printed ..)`: it answers the length alone, and the bytes are the caller's.
pub(crate) fn write_line(bytes: &mut [u8], fields: &[Field]) -> usize
    requires { fields_width fields.now + 1 ≤ length bytes.old }
    ensures text { Gives (printed (fields_text fields.now ++ newline) bytes.old) result bytes.new }
    ensures columns { result ≡ fields_width fields.now + 1 }
{
    let end = write_all(bytes, fields);
    bytes[end] = b'\n';
    end + 1
}

/// A row is written as its line.
impl Written for PageRow {
    ghost text = { λ row. line_text (row_of row) };

    ghost width = { λ row. 69 };

    #[tactic(auto, unfolding(crate::specs::Lines::line_text))]
    fn write(&self, bytes: &mut [u8]) -> usize {
        write_line(bytes, &row_fields(self))
    }
}

/// Writes the line of the sums at the start of the bytes; answers how long it is.
// `Gives (printed ..)`: it answers the length alone, and the bytes are the caller's.
#[tactic(auto, unfolding(crate::specs::Lines::line_text))]
pub(crate) fn write_sums(bytes: &mut [u8], rows: &PageRows) -> usize
    requires { 69 ≤ length bytes.old }
    ensures text { Gives (printed (line_text (sums_of rows.now)) bytes.old) result bytes.new }
    ensures columns { result ≡ 69 }
{
    write_line(bytes, &sums_fields(rows))
}
