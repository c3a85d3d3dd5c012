ghost use Rattle.std.specs.Option.{unwrap_or};
ghost use Rattle.std.specs.Prelude.{◌≡◌, ◌≤◌, ℤ, pos, ◌+ℤ◌, ◌≤ℤ◌, unsigned_abs, is_some, true, false, IfErr, IfOk, IfNone, IfSome, IsTrue};
ghost use Rattle.settlement.specs.Books.{RowView, column_of, new_row, with_actual, with_filed, with_requirement};
ghost use Rattle.settlement.specs.Closing.{has_its_share, closed_row, figures_of, is_true_up};
ghost use Rattle.settlement.specs.Drafting.{may_file};
ghost use Rattle.settlement.specs.Looking.{answer_of};
ghost use Rattle.settlement.specs.Outcomes.{in_dollars, in_money};
ghost use Rattle.settlement.specs.Paying.{share_of, with_share};
ghost use Rattle.settlement.specs.Rules.{difference};
ghost use Rattle.settlement.specs.declared.refusal.Refusal.TheVariants.{ActualOutOfRange, RequirementOutOfRange};
ghost use Rattle.book.specs.Rows.{AnswerInRange};

use crate::figures::Figures;
use crate::rules;
use settlement::{Account, Filed, Refusal, RowAnswer};
use std::marker::Model;

/// A project's row: dollars due and filed, cents paid and kept.
#[derive(Clone, Copy)]
pub(crate) struct Row {
    project: u32,
    account: Account,
    filed: Filed,
    paid: i64,
}

impl Model for Row {
    ghost use Rattle.settlement.specs.Books.{RowView};
    ghost use Rattle.book.specs.Rows.{RowInRange};

    ghost Value = { RowView };

    ghost view = { λ r. record { project = r.project; account = r.account; filed = r.filed; paid = r.paid } };

    ghost invariant = { λ r. RowInRange (record { project = r.project; account = r.account; filed = r.filed; paid = r.paid }) };

    ghost inverse = { λ r. record { project = r.project; account = r.account; filed = r.filed; paid = r.paid } };
}

impl Row {
    /// The row that a project gets with its first filing.
    pub(crate) fn new(project: u32) -> Row
        ensures { result ≡ new_row project }
    {
        Row {
            project,
            account: Account {
                due_now: 0,
                due_next: 0,
                kept: 0,
            },
            filed: Filed {
                requirement: None,
                actual: None,
            },
            paid: 0,
        }
    }

    pub(crate) fn project(&self) -> u32
        ensures { result ≡ self.now.project }
    {
        self.project
    }

    pub(crate) fn paid(&self) -> i64
        ensures value { result ≡ self.now.paid }
        ensures range { IsTrue (in_money result) }
    {
        self.paid
    }

    pub(crate) fn is_filed(&self) -> bool
        ensures { result ≡ is_some self.now.filed.requirement }
    {
        self.filed.requirement.is_some()
    }

    pub(crate) fn is_stated(&self) -> bool
        ensures { result ≡ is_some self.now.filed.actual }
    {
        self.filed.actual.is_some()
    }

    /// Column 16 with this requirement.
    fn column_with(&self, requirement: i64) -> i64
        requires { IsTrue (in_dollars requirement) }
        ensures { result ≡ requirement +ℤ self.now.account.due_now }
    {
        requirement + self.account.due_now
    }

    /// Requirement plus what is due now; nothing where no requirement is filed.
    pub(crate) fn column_16(&self) -> i64
        ensures value { result ≡ column_of self.now }
        ensures range { IsTrue (in_dollars result) }
    {
        match self.filed.requirement {
            Some(requirement) => self.column_with(requirement),
            None => 0,
        }
    }

    /// Files a requirement, where it and column 16 are in range.
    pub(crate) fn set_requirement(&mut self, requirement: i64) -> Result<(), Refusal>
        ensures filed { IfOk result (λ _. (may_file requirement self.old.account ≡ true) × (self.new ≡ with_filed (with_requirement requirement) self.old)) }
        ensures refused { IfErr result (λ why. (may_file requirement self.old.account ≡ false) × (why ≡ RequirementOutOfRange) × (self.new ≡ self.old)) }
    {
        if !rules::in_dollars(requirement) || !rules::in_dollars(self.column_with(requirement)) {
            return Err(Refusal::RequirementOutOfRange);
        }
        self.filed.requirement = Some(requirement);
        Ok(())
    }

    /// States an actual, where it is in range.
    pub(crate) fn set_actual(&mut self, actual: i64) -> Result<(), Refusal>
        ensures stated { IfOk result (λ _. (in_dollars actual ≡ true) × (self.new ≡ with_filed (with_actual actual) self.old)) }
        ensures refused { IfErr result (λ why. (in_dollars actual ≡ false) × (why ≡ ActualOutOfRange) × (self.new ≡ self.old)) }
    {
        if !rules::in_dollars(actual) {
            return Err(Refusal::ActualOutOfRange);
        }
        self.filed.actual = Some(actual);
        Ok(())
    }

    pub(crate) fn answer(&self) -> RowAnswer
        ensures answers_the_row { result ≡ answer_of self.now }
        ensures row_has_kept_cents_and_column_16_in_range { AnswerInRange result }
    {
        RowAnswer {
            project: self.project,
            due_now: self.account.due_now,
            due_next: self.account.due_next,
            paid: self.paid,
            kept: self.account.kept,
            requirement: self.filed.requirement,
            actual: self.filed.actual,
        }
    }

    /// The row's share of the money.
    pub(crate) fn share(&self, money: i64, total: i64) -> i64
        requires money { IsTrue (in_money money) }
        requires total { pos 0 ≤ℤ total }
        ensures value { result ≡ share_of money total self.now }
        ensures range { column_of self.now ≤ℤ total → IsTrue (in_money result) }
    {
        rules::share(money, total, self.column_16())
    }

    /// Whether the row is paid its share of the money.
    pub(crate) fn has_its_share(&self, money: i64, total: i64) -> bool
        requires money { IsTrue (in_money money) }
        requires total { pos 0 ≤ℤ total }
        ensures { result ≡ has_its_share money total self.now }
    {
        self.paid == self.share(money, total)
    }

    /// Writes the row with its share of the money as paid.
    pub(crate) fn pay(&mut self, money: i64, total: i64)
        requires money { IsTrue (in_money money) }
        requires total { pos 0 ≤ℤ total }
        requires part { column_of self.old ≤ℤ total }
        ensures { self.new ≡ with_share money total self.old }
    {
        *self = Row {
            project: self.project,
            account: self.account,
            filed: self.filed,
            paid: self.share(money, total),
        };
    }

    /// What the project should have been paid, in dollars: its actual and what is due now.
    fn entitled(&self) -> i64
        ensures value { result ≡ unwrap_or self.now.filed.actual (pos 0) +ℤ self.now.account.due_now }
        ensures bound { unsigned_abs result ≤ 200000000 }
    {
        self.filed.actual.unwrap_or(0) + self.account.due_now
    }

    /// The same less what it was paid, in cents.
    fn difference(&self) -> i64
        ensures value { result ≡ difference (unwrap_or self.now.filed.actual (pos 0)) self.now.account.due_now self.now.paid }
        ensures bound { unsigned_abs result ≤ 200000000000 }
    {
        rules::cents(self.entitled()) - self.paid
    }

    /// The figures of the year, where the true-up is in range.
    pub(crate) fn figures(&self, factor: u32) -> Option<Figures>
        requires { factor ≤ 2400000 }
        ensures figures { IfSome result (λ f. (f ≡ figures_of (λ owed. factor) self.now) × (is_true_up f.true_up ≡ true)) }
        ensures none { IfNone result (is_true_up (figures_of (λ owed. factor) self.now).true_up ≡ false) }
    {
        Figures::new(self.difference(), factor, self.account.kept)
    }

    /// The row with these figures in the next year.
    pub(crate) fn close_with(&mut self, figures: &Figures)
        ensures { self.new ≡ closed_row (λ r. figures.now) self.old }
    {
        self.account = Account {
            due_now: self.account.due_next,
            due_next: figures.true_up,
            kept: figures.kept,
        };
        self.filed = Filed {
            requirement: None,
            actual: None,
        };
        self.paid = 0;
    }
}
