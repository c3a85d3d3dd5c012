ghost use Rattle.std.specs.Prelude.{◌≡◌, ◌≤◌, true, false, unsigned_abs, IfNone, IfSome};
ghost use Rattle.settlement.specs.Closing.{is_true_up};
ghost use Rattle.settlement.specs.Rules.{figures_on};

use crate::rules;
use std::marker::Model;

/// A row's year as a close works it out, where its true-up is in range.
#[derive(Clone, Copy)]
pub(crate) struct Figures {
    pub(crate) difference: i64,
    pub(crate) interest: i64,
    pub(crate) true_up: i64,
    pub(crate) kept: i64,
}

impl Model for Figures {
    ghost use Rattle.settlement.specs.Rules.{Figures as FiguresOf};
    ghost use Rattle.book.specs.Rows.{FiguresInRange};

    ghost Value = { FiguresOf };

    ghost view = { λ f. record { difference = f.difference; interest = f.interest; true_up = f.true_up; kept = f.kept } };

    ghost invariant = { λ f. FiguresInRange (record { difference = f.difference; interest = f.interest; true_up = f.true_up; kept = f.kept }) };

    ghost inverse = { λ f. record { difference = f.difference; interest = f.interest; true_up = f.true_up; kept = f.kept } };
}

impl Figures {
    /// The figures of a row to which nothing is owed.
    pub(crate) const NONE: Figures = Figures {
        difference: 0,
        interest: 0,
        true_up: 0,
        kept: 0,
    };

    /// The figures of a difference and the cents kept so far, by a factor in ten-millionths.
    pub(crate) fn new(difference: i64, factor: u32, kept: i64) -> Option<Figures>
        requires difference { unsigned_abs difference ≤ 200000000000 }
        requires factor { factor ≤ 2400000 }
        requires kept { unsigned_abs kept ≤ 50 }
        ensures figures { IfSome result (λ f. (f ≡ figures_on (λ owed. factor) difference kept) × (is_true_up f.true_up ≡ true)) }
        ensures none { IfNone result (is_true_up (figures_on (λ owed. factor) difference kept).true_up ≡ false) }
    {
        let interest = rules::interest(difference, factor);
        let settling = rules::settling(difference, interest, kept);
        let true_up = rules::true_up(settling);
        if !rules::is_true_up(true_up) {
            return None;
        }
        Some(Figures {
            difference,
            interest,
            true_up,
            kept: rules::left_over(settling, true_up),
        })
    }
}
