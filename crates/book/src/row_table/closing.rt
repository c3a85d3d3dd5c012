ghost use Rattle.std.specs.List.{list_all};
ghost use Rattle.std.specs.Prelude.{⊤, take, pos, IsTrue, map, ◌≤ℤ◌, ◌≡◌, ◌≤◌, ℤ, length, IfNone, IfSome, true, false};
ghost use Rattle.rates.specs.Factor.{interest_months};
ghost use Rattle.settlement.specs.Books.{sum_of_paid, total_of};
ghost use Rattle.settlement.specs.Closing.{closed, figures_of, has_its_share, is_stated, is_true_up};
ghost use Rattle.settlement.specs.Outcomes.{in_money};
ghost use Rattle.settlement.specs.declared.refusal.Refusal.TheVariants.{NotPaid, NotStated};
ghost use Rattle.book.specs.Asking.{Asks};
ghost use Rattle.book.specs.Remaining.{closed_at_rates};
ghost use Rattle.book.specs.Tables.{TableCloses, closed_rows, closed_table};

use crate::figures::Figures;
use crate::row::Row;
use crate::row_table::{MOST_ROWS, RowTable};
use rates::RateList;
use settlement::{Refusal, State};

/// The last year that can be closed.
const LAST_CLOSING_YEAR: u16 = 65_534;

/// The figures of the rows, where each true-up is in range.
fn figures_of(rows: &[Row], factor: u32) -> Option<[Figures; MOST_ROWS]>
    requires few { length rows.now ≤ 64 }
    requires factor { factor ≤ 2400000 }
    ensures figures { IfSome result (λ figures. take (length rows.now) figures ≡ map (figures_of (λ owed. factor)) rows.now) }
    ensures in_range { IfSome result (λ figures. list_all (λ r. is_true_up (figures_of (λ owed. factor) r).true_up) rows.now ≡ true) }
    ensures none { IfNone result (list_all (λ r. is_true_up (figures_of (λ owed. factor) r).true_up) rows.now ≡ false) }
{
    let mut figures = [Figures::NONE; MOST_ROWS];
    for (place, row) in rows.iter().enumerate() {
        figures[place] = row.figures(factor)?;
    }
    Some(figures)
}

/// Whether each of the rows has an actual.
fn are_stated(rows: &[Row]) -> bool
    ensures { result ≡ list_all is_stated rows.now }
{
    rows.iter().all(|row| row.is_stated())
}

/// Whether each of the rows is paid its share.
fn have_their_shares(rows: &[Row], money: i64, total: i64) -> bool
    requires money { IsTrue (in_money money) }
    requires total { pos 0 ≤ℤ total }
    ensures { result ≡ list_all (has_its_share money total) rows.now }
{
    rows.iter().all(|row| row.has_its_share(money, total))
}

/// Closes each of the rows with its figures.
fn close_each(rows: &mut [Row], figures: &[Figures])
    requires { length rows.old ≤ length figures.now }
    ensures { rows.new ≡ closed_rows rows.old figures.now }
{
    for place in 0..rows.len() {
        rows[place].close_with(&figures[place]);
    }
}

impl RowTable {
    /// Closes the year at the rates of a list.
    pub(crate) fn close<L: RateList>(&mut self, list: &L) -> Result<(), Refusal>
        ensures { TableCloses (λ b. closed interest_months b (record { rates = L.rates list.now })) self.old result self.new }
    {
        self.rate()?;
        self.each_is_stated()?;
        self.each_has_its_share()?;
        self.close_at_rates(list)
    }

    /// Questions 18 to 20, and the closing.
    #[tactic(auto, using(crate::proofs::Closed::closed_with_its_figures))]
    fn close_at_rates<L: RateList>(&mut self, list: &L) -> Result<(), Refusal>
        requires { sum_of_paid self.old.rows ≤ℤ self.old.money }
        ensures { TableCloses (λ b. closed_at_rates b (record { rates = L.rates list.now })) self.old result self.new }
    {
        if self.year > LAST_CLOSING_YEAR {
            return Err(Refusal::LastYear);
        }
        let factor = rates::factor(list, self.year).ok_or(Refusal::RateMissing)?;
        let figures = figures_of(self.in_use(), factor).ok_or(Refusal::TrueUpOutOfRange)?;
        self.close_with(&figures);
        Ok(())
    }

    /// Question 16.
    fn each_is_stated(&self) -> Result<(), Refusal>
        ensures { Asks (list_all is_stated self.now.rows) NotStated (λ _. ⊤) result }
    {
        if !are_stated(self.in_use()) {
            return Err(Refusal::NotStated);
        }
        Ok(())
    }

    /// Question 17.
    #[tactic(auto, using(crate::proofs::Closed::paid_within_money))]
    fn each_has_its_share(&self) -> Result<(), Refusal>
        ensures { Asks (list_all (has_its_share self.now.money (total_of self.now.rows)) self.now.rows) NotPaid (λ _. sum_of_paid self.now.rows ≤ℤ self.now.money) result }
    {
        if !have_their_shares(self.in_use(), self.money, self.total()) {
            return Err(Refusal::NotPaid);
        }
        Ok(())
    }

    /// The closing with these figures.
    fn close_with(&mut self, figures: &[Figures; MOST_ROWS])
        requires year { self.old.year ≤ 65534 }
        requires till { sum_of_paid self.old.rows ≤ℤ self.old.money }
        ensures { self.new ≡ closed_table figures.now self.old }
    {
        let money = self.till();
        let mut rows = self.rows;
        close_each(&mut rows[..self.count], figures);
        *self = RowTable {
            year: self.year + 1,
            state: State::Draft,
            money,
            rows,
            count: self.count,
        };
    }
}
