ghost use Rattle.std.specs.Prelude.{map, ◌≡◌};
ghost use Rattle.settlement.specs.Books.{total_of};
ghost use Rattle.settlement.specs.Paying.{paid, with_share};
ghost use Rattle.book.specs.Tables.{TableGives, with_the_rows};

use crate::row_table::RowTable;
use settlement::Refusal;

impl RowTable {
    /// Pays: by how much the sum of paid has changed, and what the till then is.
    pub(crate) fn pay(&mut self) -> Result<(i64, i64), Refusal>
        ensures { TableGives paid self.old result self.new }
    {
        self.rate()?;
        let before = self.sum_of_paid();
        self.pay_rows();
        let after = self.sum_of_paid();
        Ok((after - before, self.left_of(after)))
    }

    /// Pays every row its share.
    #[tactic(auto, using(crate::proofs::Totals::not_yet_changed))]
    fn pay_rows(&mut self)
        ensures { self.new ≡ with_the_rows (map (with_share self.old.money (total_of self.old.rows)) self.old.rows) self.old }
    {
        let money = self.money;
        let total = self.total();
        let mut rows = self.rows;
        for row in rows[..self.count].iter_mut() {
            row.pay(money, total);
        }
        self.rows = rows;
    }
}
