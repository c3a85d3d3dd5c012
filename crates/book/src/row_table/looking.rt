ghost use Rattle.std.specs.List.{position};
ghost use Rattle.std.specs.Prelude.{◌≡◌, ◌≤◌, IfOk, IfSome, length};
ghost use Rattle.journals.specs.Journal.{Held};
ghost use Rattle.settlement.specs.Looking.{row_at, standing_of, looked};
ghost use Rattle.book.specs.Rows.{AnswerInRange};
ghost use Rattle.book.specs.Tables.{book_of, TableGives};

use crate::row_table::RowTable;
use crate::row_table::places::project_number;
use settlement::{Refusal, RowAnswer, Standing};

impl RowTable {
    /// Where the book stands.
    pub(crate) fn standing(&self) -> Standing
        ensures answers_where_the_book_stands { (held : Held) → result ≡ standing_of (book_of held self.now) }
        ensures at_most_64_rows { length self.now.rows ≤ 64 }
    {
        Standing {
            year: self.year,
            state: self.state,
            money: self.money,
            till: self.till(),
            rows: self.count,
        }
    }

    /// The row at a position.
    pub(crate) fn row_at(&self, position: usize) -> Option<RowAnswer>
        ensures answers_the_row_there { (held : Held) → result ≡ row_at (book_of held self.now) position }
        ensures row_has_kept_cents_and_column_16_in_range { IfSome result AnswerInRange }
    {
        let row = self.in_use().get(position)?;
        Some(row.answer())
    }

    /// A project's row.
    pub(crate) fn look(&self, project: i64) -> Result<RowAnswer, Refusal>
        ensures answers_the_projects_row { TableGives (λ b. looked b project) self.now result self.now }
        ensures row_has_kept_cents_and_column_16_in_range { IfOk result AnswerInRange }
    {
        let project = project_number(project)?;
        let (_, row) = self.row_there(project)?;
        Ok(row.answer())
    }
}
