mod closing;
mod drafting;
mod looking;
mod paying;
mod places;
mod stating;

ghost use Rattle.std.specs.Prelude.{⊤, ◌+ℤ◌, get_or, pos, ◌-ℤ◌, IsTrue, ℕ, ◌≤ℤ◌, ◌≡◌, ◌<◌, ◌≤◌, ℤ, [], unsigned_abs, length};
ghost use Rattle.settlement.specs.Books.{RowView, column_of, sum_of_paid, total_of, is_draft, is_posted, rate_of};
ghost use Rattle.settlement.specs.Outcomes.{in_money};
ghost use Rattle.settlement.specs.declared.refusal.Refusal.TheVariants.{MoneyOutOfRange, NotDraft, NotPosted};
ghost use Rattle.settlement.specs.declared.state.State.TheVariants.{Draft};
ghost use Rattle.book.specs.Asking.{Asks};

use crate::row::Row;
use crate::rules;
use settlement::{Refusal, State};
use std::marker::Model;

/// The most rows that a book has.
const MOST_ROWS: usize = 64;

/// A book's year without its journal: the first `count` places of `rows` are in use.
#[derive(Drop)]
pub(crate) struct RowTable {
    year: u16,
    state: State,
    money: i64,
    rows: [Row; MOST_ROWS],
    count: usize,
}

impl Model for RowTable {
    ghost use Rattle.std.specs.Prelude.{◌≡◌, ◌≤◌, length, take};
    ghost use Rattle.book.specs.Tables.{TableInRange, TableView};

    ghost Value = { TableView };

    ghost view = { λ t. record { year = t.year; state = t.state; money = t.money; rows = take t.count t.rows } };

    ghost invariant = { λ t. (t.count ≤ 64) × (length t.rows ≡ 64) × TableInRange (record { year = t.year; state = t.state; money = t.money; rows = take t.count t.rows }) };
}

impl RowTable {
    /// A draft of the year without rows or money.
    pub(crate) fn new(year: u16) -> RowTable
        ensures { result ≡ record { year = year; state = Draft; money = pos 0; rows = [] } }
    {
        RowTable {
            year,
            state: State::Draft,
            money: 0,
            rows: [Row::new(0); MOST_ROWS],
            count: 0,
        }
    }

    /// A draft, or question 2.
    fn draft(&self) -> Result<(), Refusal>
        ensures { Asks (is_draft self.now.state) NotDraft (λ _. ⊤) result }
    {
        match self.state {
            State::Draft => Ok(()),
            State::Posted(_) => Err(Refusal::NotDraft),
        }
    }

    /// The posted rate, or question 9.
    pub(crate) fn rate(&self) -> Result<i64, Refusal>
        ensures { Asks (is_posted self.now.state) NotPosted (λ rate. (rate ≡ rate_of self.now.state) × (unsigned_abs rate ≤ 1000000)) result }
    {
        match self.state {
            State::Draft => Err(Refusal::NotPosted),
            State::Posted(rate) => Ok(rate),
        }
    }

    /// The money after a change, or question 11.
    pub(crate) fn money_after(&self, change: i64) -> Result<i64, Refusal>
        requires { unsigned_abs change ≤ 2000000000000 }
        ensures { Asks (in_money (self.now.money +ℤ change)) MoneyOutOfRange (λ money. money ≡ self.now.money +ℤ change) result }
    {
        let money = self.money + change;
        if !rules::in_money(money) {
            return Err(Refusal::MoneyOutOfRange);
        }
        Ok(money)
    }

    pub(crate) fn set_money(&mut self, money: i64)
        requires { IsTrue (in_money money) }
        ensures { self.new ≡ record { year = self.old.year; state = self.old.state; money = money; rows = self.old.rows } }
    {
        self.money = money;
    }

    /// The rows in use.
    fn in_use(&self) -> &[Row]
        ensures rows { result.now ≡ self.now.rows }
        ensures few { length result.now ≤ 64 }
    {
        &self.rows[..self.count]
    }

    /// The total of column 16 over the rows.
    fn total(&self) -> i64
        ensures value { result ≡ total_of self.now.rows }
        ensures not_below { pos 0 ≤ℤ result }
        ensures bound { unsigned_abs result ≤ 6400000000 }
        ensures parts { (place : ℕ) (blank : RowView) → place < length self.now.rows → column_of (get_or self.now.rows place blank) ≤ℤ result }
    {
        let mut sum = 0;
        for row in self.in_use() {
            sum += row.column_16();
        }
        sum
    }

    /// The sum of what is paid.
    fn sum_of_paid(&self) -> i64
        ensures value { result ≡ sum_of_paid self.now.rows }
        ensures not_below { pos 0 ≤ℤ result }
        ensures bound { unsigned_abs result ≤ 5760000000000 }
    {
        let mut sum = 0;
        for row in self.in_use() {
            sum += row.paid();
        }
        sum
    }

    /// The money that is not paid out.
    fn till(&self) -> i64
        ensures value { result ≡ self.now.money -ℤ sum_of_paid self.now.rows }
        ensures bound { unsigned_abs result ≤ 5850000000000 }
        ensures at_most_the_money { result ≤ℤ self.now.money }
    {
        self.left_of(self.sum_of_paid())
    }

    /// The money less what is paid.
    fn left_of(&self, paid: i64) -> i64
        requires not_below { pos 0 ≤ℤ paid }
        requires bound { unsigned_abs paid ≤ 5760000000000 }
        ensures value { result ≡ self.now.money -ℤ paid }
        ensures bound { unsigned_abs result ≤ 5850000000000 }
        ensures at_most_the_money { result ≤ℤ self.now.money }
    {
        self.money - paid
    }
}
