use crate::amount::Amount;
use settlement::{Filed, Refusal, RowAnswer, State};
use std::fmt;

/// What a book answers an entry, and how its year stands.
#[derive(Clone, Copy, PartialEq, Eq, Debug)]
pub enum Answer {
    Opened {
        year: u16,
    },
    Filed,
    Rate(i64),
    Charge(i64),
    Change(i64),
    Paid {
        change: i64,
        till: i64,
    },
    Stated,
    Closed {
        year: u16,
    },
    Row(RowAnswer),
    Refused(Refusal),
    Unread,
    /// How the year stands.
    Year {
        year: u16,
        state: State,
        money: i64,
        till: i64,
    },
}

impl Answer {
    ghost use Rattle.std.specs.Prelude.{◌≡◌, ◌≢◌, IfNone, IfSome};
    ghost use Rattle.answers.specs.Answers.{HasItsOwnText};
    ghost use Rattle.answers.specs.declared.answer.Answer.TheVariants.{Refused};

    /// The refusal, if it is one.
    pub fn refusal(&self) -> Option<Refusal>
        ensures refusal { IfSome result (λ why. self.now ≡ Refused why) }
        ensures no_refusal { IfNone result ((why : _) → self.now ≢ Refused why) }
        ensures no_other_answer_has_its_text { HasItsOwnText self.now }
    {
        match *self {
            Answer::Refused(refusal) => Some(refusal),
            _ => None,
        }
    }
}

impl fmt::Display for Answer {
    ghost use Rattle.std.specs.Prelude.{Some};
    ghost use Rattle.answers.specs.Answers.{answer_text};

    ghost output = { λ answer. Some (answer_text answer) };

    #[tactic(auto, using(crate::proofs::Decimals::shown))]
    fn fmt<W: fmt::Write>(&self, f: &mut fmt::Formatter<W>) -> fmt::Result {
        match *self {
            Answer::Opened { year } => write!(f, "opened {year}"),
            Answer::Filed => f.write_str("filed"),
            Answer::Rate(rate) => write!(f, "rate {rate}"),
            Answer::Charge(charge) => write!(f, "charge {charge}"),
            Answer::Change(change) => write!(f, "change {change}"),
            Answer::Paid { change, till } => write!(f, "paid {change} till {till}"),
            Answer::Stated => f.write_str("stated"),
            Answer::Closed { year } => write!(f, "closed {year}"),
            Answer::Row(row) => write!(f, "row {}", RowText(row)),
            Answer::Refused(refusal) => write!(f, "refused {}", refusal.number()),
            Answer::Unread => f.write_str("unread"),
            Answer::Year {
                year,
                state,
                money,
                till,
            } => {
                let standing = YearText {
                    year,
                    state,
                    money,
                    till,
                };
                write!(f, "year {standing}")
            }
        }
    }
}

/// A row's numbers, each after its name.
#[derive(Clone, Copy)]
struct RowText(RowAnswer);

impl fmt::Display for RowText {
    ghost use Rattle.std.specs.Prelude.{Some};
    ghost use Rattle.answers.specs.Answers.{row_text};

    ghost output = { λ row. Some (row_text row.0) };

    #[tactic(auto, using(crate::proofs::Decimals::shown))]
    fn fmt<W: fmt::Write>(&self, f: &mut fmt::Formatter<W>) -> fmt::Result {
        let RowAnswer {
            project,
            due_now,
            due_next,
            paid,
            kept,
            requirement,
            actual,
        } = self.0;
        let filed = FiledText(Filed {
            requirement,
            actual,
        });
        write!(
            f,
            "{project} due-now {due_now} due-next {due_next} paid {paid} kept {kept} {filed}"
        )
    }
}

/// What is filed and stated, each after its name.
#[derive(Clone, Copy)]
struct FiledText(Filed);

impl fmt::Display for FiledText {
    ghost use Rattle.std.specs.Prelude.{Some};
    ghost use Rattle.answers.specs.Answers.{filed_text};

    ghost output = { λ filed. Some (filed_text filed.0) };

    fn fmt<W: fmt::Write>(&self, f: &mut fmt::Formatter<W>) -> fmt::Result {
        let requirement = Amount(self.0.requirement);
        let actual = Amount(self.0.actual);
        write!(f, "requirement {requirement} actual {actual}")
    }
}

/// How a year stands, each number after its name.
#[derive(Clone, Copy)]
struct YearText {
    year: u16,
    state: State,
    money: i64,
    till: i64,
}

impl fmt::Display for YearText {
    ghost use Rattle.std.specs.Prelude.{Some};
    ghost use Rattle.answers.specs.Answers.{year_text};

    ghost output = { λ y. Some (year_text y.year y.state y.money y.till) };

    #[tactic(auto, using(crate::proofs::Decimals::shown))]
    fn fmt<W: fmt::Write>(&self, f: &mut fmt::Formatter<W>) -> fmt::Result {
        let YearText {
            year,
            state,
            money,
            till,
        } = *self;
        match state {
            State::Draft => write!(f, "{year} draft money {money} till {till}"),
            State::Posted(rate) => write!(f, "{year} posted {rate} money {money} till {till}"),
        }
    }
}
