ghost use Rattle.settlement.specs.Stating.{stated};
ghost use Rattle.book.specs.Remaining.{stated_row};
ghost use Rattle.book.specs.Tables.{TableGives};

use crate::row_table::RowTable;
use crate::row_table::places::project_number;
use settlement::Refusal;

impl RowTable {
    /// States a project's actual.
    pub(crate) fn state(&mut self, project: i64, actual: i64) -> Result<(), Refusal>
        ensures { TableGives (λ b. stated b project actual) self.old result self.new }
    {
        let project = project_number(project)?;
        self.rate()?;
        self.state_row(project, actual)
    }

    /// Questions 14 and 15, and the statement.
    fn state_row(&mut self, project: u32, actual: i64) -> Result<(), Refusal>
        ensures { TableGives (λ b. stated_row b project actual) self.old result self.new }
    {
        let (place, mut row) = self.row_there(project)?;
        row.set_actual(actual)?;
        self.write(place, row);
        Ok(())
    }
}
