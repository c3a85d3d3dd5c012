ghost use Rattle.std.specs.Prelude.{◌≡◌, ◌≤◌, true, pos, ◌*ℤ◌, unsigned_abs, length, IfOk, IfSome};
ghost use Rattle.amounts.specs.Rounding.{Nearest};
ghost use Rattle.rates.specs.Factor.{interest_months};
ghost use Rattle.settlement.specs.Billing.{billed, resettled};
ghost use Rattle.settlement.specs.Books.{total_of};
ghost use Rattle.settlement.specs.Calls.{bill, close, file, pay, post, resettle, state};
ghost use Rattle.settlement.specs.Closing.{closed};
ghost use Rattle.settlement.specs.Conservation.{NoCentIsMadeOrLost};
ghost use Rattle.settlement.specs.Drafting.{filed, opened, posted};
ghost use Rattle.settlement.specs.Looking.{looked, row_at, standing_of};
ghost use Rattle.settlement.specs.Outcomes.{Gives};
ghost use Rattle.settlement.specs.Paying.{paid};
ghost use Rattle.settlement.specs.Rules.{pair_of, unsigned};
ghost use Rattle.settlement.specs.Runs.{Step};
ghost use Rattle.settlement.specs.Stating.{stated};
ghost use Rattle.book.specs.Remaining.{billed_reading, entered, resettled_reading};
ghost use Rattle.book.specs.Rows.{AnswerInRange};
ghost use Rattle.book.specs.Views.{Leaves, pair_in, places, view};

use crate::reading::Reading;
use crate::row_table::RowTable;
use crate::rules;
use journals::Journal;
use rates::RateList;
use settlement::{Refusal, RowAnswer, Standing};

/// A department's book over a journal of kilowatt-hours.
#[derive(Drop)]
pub struct Book<J> {
    journal: J,
    table: RowTable,
}

impl<J: Journal> Book<J> {
    /// A draft of the year without rows or money, over a journal, which is wiped.
    pub fn open(journal: J, year: u16) -> Book<J>
        ensures opened { view J.held result ≡ opened year }
        ensures places { J.wipe_leaves journal result.journal }
        ensures no_cent_is_made_or_lost { NoCentIsMadeOrLost (view J.held) (places J.place) year result }
    {
        Book::draft(journal, year)
    }

    /// A draft over a journal, which is wiped.
    fn draft(mut journal: J, year: u16) -> Book<J>
        ensures opened { view J.held result ≡ opened year }
        ensures places { J.wipe_leaves journal result.journal }
    {
        journal.wipe();
        Book {
            journal,
            table: RowTable::new(year),
        }
    }

    /// Files what a project's owner is to receive this year: project 1 to 99,999,999; requirement, and column 16
    /// with it, 0 to 100,000,000 dollars. Refused by 1 to 4.
    pub fn file(&mut self, project: i64, requirement: i64) -> Result<(), Refusal>
        ensures outcome { Gives (filed (view J.held self.old) project requirement) result (view J.held self.new) }
        ensures journal_stays { self.new.journal ≡ self.old.journal }
        ensures is_a_step_of_the_runs_that_the_law_covers { Step (view J.held) (places J.place) (file project requirement result) self.old self.new }
    {
        self.table.file(project, requirement)
    }

    /// Posts the year for a forecast of 1 to 1,000,000,000 megawatt-hours, and answers the usage rate: 1 is 0.0001 dollars
    /// for a megawatt-hour, and it is 1 to 1,000,000. Refused by 2, 5, 6 and 7.
    pub fn post(&mut self, forecast: i64) -> Result<i64, Refusal>
        ensures outcome { Gives (posted (view J.held self.old) forecast) result (view J.held self.new) }
        ensures journal_stays { self.new.journal ≡ self.old.journal }
        ensures is_a_step_of_the_runs_that_the_law_covers { Step (view J.held) (places J.place) (post forecast result) self.old self.new }
        ensures usage_rate_is_nearest_to_10000_times_the_total_over_the_forecast { IfOk result (λ rate. Nearest (total_of (view J.held self.old).rows *ℤ pos 10000) (unsigned forecast) rate) }
    {
        self.table.post(forecast)
    }

    /// Pays each row its share of the money, and answers by how much the sum of paid has changed and what
    /// the till then is, in cents. Refused by 9.
    pub fn pay(&mut self) -> Result<(i64, i64), Refusal>
        ensures outcome { Gives (paid (view J.held self.old)) result (view J.held self.new) }
        ensures journal_stays { self.new.journal ≡ self.old.journal }
        ensures is_a_step_of_the_runs_that_the_law_covers { Step (view J.held) (places J.place) (pay result) self.old self.new }
    {
        self.table.pay()
    }

    /// States a project's actual for the year: project 1 to 99,999,999, actual 0 to 100,000,000 dollars. Refused by 1, 9, 14
    /// and 15.
    pub fn state(&mut self, project: i64, actual: i64) -> Result<(), Refusal>
        ensures outcome { Gives (stated (view J.held self.old) project actual) result (view J.held self.new) }
        ensures journal_stays { self.new.journal ≡ self.old.journal }
        ensures is_a_step_of_the_runs_that_the_law_covers { Step (view J.held) (places J.place) (state project actual result) self.old self.new }
    {
        self.table.state(project, actual)
    }

    /// The row of a project, 1 to 99,999,999: dues, requirement and actual in dollars, paid and kept in cents. Kept cents are -50 to 50, and column 16,
    /// while filed, is 0 to 100,000,000 dollars. Refused by 1 and 14.
    pub fn look(&self, project: i64) -> Result<RowAnswer, Refusal>
        ensures answers_the_projects_row { Gives (looked (view J.held self.now) project) result (view J.held self.now) }
        ensures row_has_kept_cents_and_column_16_in_range { IfOk result AnswerInRange }
    {
        self.table.look(project)
    }

    /// Where the book stands: year and state, money and till in cents, and how many rows there are, at most 64.
    pub fn standing(&self) -> Standing
        ensures answers_where_the_book_stands { result ≡ standing_of (view J.held self.now) }
        ensures answer_has_at_most_64_rows { result.rows ≤ 64 }
        ensures book_has_at_most_64_rows { length (view J.held self.now).rows ≤ 64 }
    {
        self.table.standing()
    }

    /// The row at a position, counted from 0 in the order of first filing, if there is one; with the units and ranges of `look`.
    pub fn row_at(&self, position: usize) -> Option<RowAnswer>
        ensures answers_the_row_there { result ≡ row_at (view J.held self.now) position }
        ensures row_has_kept_cents_and_column_16_in_range { IfSome result AnswerInRange }
    {
        self.table.row_at(position)
    }

    /// The kilowatt-hours held for the reading's participant and month.
    fn held(&self, reading: &Reading) -> Option<u64>
        ensures value { result ≡ J.held self.now.journal (pair_in reading.now) }
        ensures at_most { IfSome result (λ kwh. kwh ≤ 10000000000) }
        ensures place { IfSome result (λ kwh. J.place self.now.journal (pair_in reading.now) ≡ true) }
    {
        self.journal.look(reading.participant, reading.month)
    }

    /// Puts kilowatt-hours that change the money: questions 11 and 12.
    fn enter(&mut self, reading: &Reading, change: i64) -> Result<i64, Refusal>
        requires kwh { reading.now.kwh ≤ 10000000000 }
        requires change { unsigned_abs change ≤ 2000000000000 }
        ensures outcome { Gives (entered (view J.held self.old) (J.place self.old.journal (pair_in reading.now)) (pair_in reading.now) reading.now.kwh change) result (view J.held self.new) }
        ensures places { Leaves (λ before after. J.put_leaves before (pair_in reading.now) after) self.old.journal result self.new.journal }
    {
        let money = self.table.money_after(change)?;
        self.journal
            .put(reading.participant, reading.month, reading.kwh)?;
        self.table.set_money(money);
        Ok(change)
    }

    /// Bills a participant's kilowatt-hours in a month, and answers the charge, in cents: participant 1 to 65,535, month 1 to 12,
    /// kilowatt-hours 0 to 10,000,000,000. Refused by 8 to 12.
    pub fn bill(&mut self, participant: i64, month: i64, kwh: i64) -> Result<i64, Refusal>
        ensures outcome { Gives (billed (view J.held self.old) (J.place self.old.journal (pair_of participant month)) participant month kwh) result (view J.held self.new) }
        ensures places { Leaves (λ before after. J.put_leaves before (pair_of participant month) after) self.old.journal result self.new.journal }
        ensures is_a_step_of_the_runs_that_the_law_covers { Step (view J.held) (places J.place) (bill participant month kwh result) self.old self.new }
    {
        let reading = Reading::new(participant, month, kwh)?;
        self.bill_reading(&reading)
    }

    /// Questions 9 to 12, and the bill.
    fn bill_reading(&mut self, reading: &Reading) -> Result<i64, Refusal>
        requires { reading.now.kwh ≤ 10000000000 }
        ensures outcome { Gives (billed_reading (view J.held self.old) (J.place self.old.journal (pair_in reading.now)) (pair_in reading.now) reading.now.kwh) result (view J.held self.new) }
        ensures places { Leaves (λ before after. J.put_leaves before (pair_in reading.now) after) self.old.journal result self.new.journal }
    {
        let rate = self.table.rate()?;
        if self.held(reading).is_some() {
            return Err(Refusal::AlreadyHeld);
        }
        self.enter(reading, rules::charge(reading.kwh, rate))
    }

    /// Resettles a participant's kilowatt-hours in a month, and answers the change of the charge, in
    /// cents, with the ranges of `bill`. Refused by 8, 9, 13 and 11, asked in this order.
    pub fn resettle(&mut self, participant: i64, month: i64, kwh: i64) -> Result<i64, Refusal>
        ensures outcome { Gives (resettled (view J.held self.old) participant month kwh) result (view J.held self.new) }
        ensures places { Leaves (λ before after. J.put_leaves before (pair_of participant month) after) self.old.journal result self.new.journal }
        ensures is_a_step_of_the_runs_that_the_law_covers { Step (view J.held) (places J.place) (resettle participant month kwh result) self.old self.new }
    {
        let reading = Reading::new(participant, month, kwh)?;
        self.resettle_reading(&reading)
    }

    /// Questions 9, 13 and 11, and the resettlement.
    fn resettle_reading(&mut self, reading: &Reading) -> Result<i64, Refusal>
        requires { reading.now.kwh ≤ 10000000000 }
        ensures outcome { Gives (resettled_reading (view J.held self.old) (pair_in reading.now) reading.now.kwh) result (view J.held self.new) }
        ensures places { Leaves (λ before after. J.put_leaves before (pair_in reading.now) after) self.old.journal result self.new.journal }
    {
        let rate = self.table.rate()?;
        let Some(held) = self.held(reading) else {
            return Err(Refusal::NotHeld);
        };
        self.enter(reading, rules::charge_change(held, reading.kwh, rate))
    }

    /// Closes the year at the rates of a list, 0 to 100,000 ten-millionths a month. Refused by 9 and by 16 to 20.
    pub fn close<L: RateList>(&mut self, list: &L) -> Result<(), Refusal>
        ensures outcome { Gives (closed interest_months (view J.held self.old) (record { rates = L.rates list.now })) result (view J.held self.new) }
        ensures places { Leaves J.wipe_leaves self.old.journal result self.new.journal }
        ensures is_a_step_of_the_runs_that_the_law_covers { Step (view J.held) (places J.place) (close (record { rates = L.rates list.now }) result) self.old self.new }
    {
        self.table.close(list)?;
        self.journal.wipe();
        Ok(())
    }
}
