ghost use Rattle.std.specs.Prelude.{◌≡◌, true, IfOk};
ghost use Rattle.sheets.specs.Factors.{factors_fit, hundredths};
ghost use Rattle.sheets.specs.Figures.{InRange, blank, figure_in};
ghost use Rattle.sheets.specs.Printed.{amount_on};
ghost use Rattle.sheets.specs.Tariff.{PageOneFollows};
ghost use Rattle.sheets.specs.Sheets.{Gives, complete as is_complete, entered, entered_labelled, finish_outcome, finished};

use crate::factors::Factors;
use crate::figures::{Figure, Figures};
use crate::page_one::page_one;
use crate::refusal::Refusal;
use crate::template::Template;
use crate::worked_sheet::WorkedSheet;
use std::marker::{Model, PhantomData};

/// A sheet that takes figures until its page 1 is finished.
#[derive(Drop)]
pub struct OpenSheet<T: Template> {
    figures: Figures,
    template: PhantomData<T>,
}

impl<T: Template> Model for OpenSheet<T> {
    ghost use Rattle.sheets.specs.declared.figures.Figures.{Figures as Entered};
    ghost use Rattle.sheets.specs.Figures.{InRange};

    ghost Value = { Entered };

    ghost view = { λ s. s.figures };

    ghost invariant = { λ s. InRange s.figures };
}

/// Whether every line of the template has an amount.
fn complete<T: Template>(figures: &Figures) -> bool
    ensures { result ≡ is_complete T.rules figures.now }
{
    T::lines()
        .iter()
        .all(|line| figures.get(T::figure(*line)).is_some())
}

/// Page 1 of the figures, where every line has an amount.
fn finished<T: Template>(figures: &Figures) -> Result<Factors, Refusal>
    requires { InRange figures.now }
    ensures { result ≡ finished hundredths T.rules figures.now }
{
    if !complete::<T>(figures) {
        return Err(Refusal::LineMissing);
    }
    page_one(T::elements(figures), T::adjusted_om_fits(figures))
}

impl<T: Template> OpenSheet<T> {
    /// A sheet with no figure.
    pub fn new() -> Self
        ensures { result ≡ blank }
    {
        OpenSheet {
            figures: Figures::blank(),
            template: PhantomData,
        }
    }

    /// Enters the amount of a line, in place of one that it had.
    pub fn enter(&mut self, line: T::Line, amount: i64) -> Result<(), Refusal>
        ensures { Gives (entered (T.rules.figure_of line) amount self.old) result self.new }
    {
        let figure = T::figure(line);
        if !figure.takes(amount) {
            return Err(Refusal::AmountOutOfRange);
        }
        self.figures.put(figure, Some(amount));
        Ok(())
    }

    /// Enters the amount of the line with this printed label.
    pub fn enter_labelled(&mut self, label: &[u8], amount: i64) -> Result<(), Refusal>
        ensures { Gives (entered_labelled T.rules label.now amount self.old) result self.new }
    {
        let line = T::labelled(label).ok_or(Refusal::UnknownLine)?;
        self.enter(line, amount)
    }

    /// A figure as entered.
    pub fn figure(&self, figure: Figure) -> Option<i64>
        ensures value { result ≡ figure_in figure self.now }
        ensures in_range { InRange self.now }
    {
        self.figures.get(figure)
    }

    /// Works out page 1 and uses the sheet up; a refusal gives the sheet back.
    pub fn finish(self) -> Result<WorkedSheet<T>, (Refusal, OpenSheet<T>)>
        ensures outcome { result ≡ finish_outcome hundredths T.rules self }
        ensures page_two_factors_are_within_1000_percent { IfOk result (λ w. factors_fit hundredths w.factors ≡ true) }
        ensures follows_the_tariff { IfOk result (λ w. PageOneFollows hundredths (T.rules.elements_of self) w.factors) }
        ensures printed_lines_add_up { T.lines_add_up T.rules self (T.rules.elements_of self) }
        ensures factors_divide_printed_lines { IfOk result (λ w. T.factors_divide hundredths (amount_on T.rules self) w.factors) }
    {
        let figures = self.figures;
        let factors = finished::<T>(&figures).map_err(|refusal| (refusal, self))?;
        Ok(WorkedSheet {
            figures,
            factors,
            template: PhantomData,
        })
    }
}
