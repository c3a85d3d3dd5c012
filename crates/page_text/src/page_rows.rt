ghost use Rattle.std.specs.Prelude.{◌≡◌, ◌≤◌, ◌↔◌, List, [], IsTrue, map, length};
ghost use Rattle.page_text.specs.Outcomes.{Gives};
ghost use Rattle.page_text.specs.Rows.{PageLine, pushed, row_of};
ghost use Rattle.rows.specs.Rows.{rows_in};

use crate::refusal::Refusal;
use crate::row::PageRow;
use rows::Rows;
use std::marker::Model;

/// What stands in a place that is not in use.
// A constant: over ghost fields no `Default` is derived.
const BLANK: PageRow = PageRow {
    project_number: 0,
    annual_expense_charge: 0,
    annual_return_charge: 0,
    depreciation_expense: 0,
    annual_revenue_requirement: 0,
};

/// Up to 64 rows of a page, the first to print first.
#[derive(Drop)]
pub struct PageRows {
    rows: Rows<PageRow, 64>,
}

impl Model for PageRows {
    ghost Value = { List PageLine };

    ghost view = { λ page. map row_of (rows_in page.rows) };
}

// `at_most_64_rows` stands in three calls: the model hides from callers what the type knows.
impl PageRows {
    /// No rows.
    pub fn new() -> Self
        ensures { result ≡ [] }
    {
        PageRows {
            rows: Rows::new(BLANK),
        }
    }

    /// Adds a row after the others; where they are 64, they stay as they are and 32 refuses it.
    pub fn push(&mut self, row: PageRow) -> Result<(), Refusal>
        ensures outcome { Gives (pushed self.old (row_of row)) result self.new }
        ensures at_most_64_rows { length self.new ≤ 64 }
    {
        self.rows.push(row).map_err(|_| Refusal::TooManyProjects)
    }

    /// The rows in use.
    pub(crate) fn as_slice(&self) -> &[PageRow]
        ensures rows { map row_of result.now ≡ self.now }
        ensures at_most_64_rows { length result.now ≤ 64 }
    {
        self.rows.as_slice()
    }

    /// How many rows there are.
    pub fn len(&self) -> usize
        ensures rows { result ≡ length self.now }
        ensures at_most_64_rows { result ≤ 64 }
    {
        self.as_slice().len()
    }

    /// Whether there are no rows.
    pub fn is_empty(&self) -> bool
        ensures { IsTrue result ↔ (self.now ≡ []) }
    {
        self.as_slice().is_empty()
    }
}
