ghost use Rattle.std.specs.Prelude.{◌≡◌, ℕ, ◌≤◌, length, unsigned_abs};
ghost use Rattle.std.specs.List.{slice_get};
ghost use Rattle.sheets.specs.declared.elements.Elements.{Elements as Cost};
ghost use Rattle.sheets.specs.declared.factors.Factors.{Factors as Worked};
ghost use Rattle.sheets.specs.declared.figures.Figures.{Figures as Entered};
ghost use Rattle.sheets.specs.declared.pricing.Project.{Project as Priced};
ghost use Rattle.sheets.specs.Elements.{SmallElements};
ghost use Rattle.sheets.specs.Figures.{InRange};
ghost use Rattle.sheets.specs.Pricing.{ProjectFits};
ghost use Rattle.sheets.specs.Printed.{Amounts, amount_on};
ghost use Rattle.sheets.specs.Rules.{Rules, line_labelled};
ghost use Rattle.sheets.specs.Tariff.{PageOneFollows};

use crate::elements::Elements;
use crate::figures::{Figure, Figures};
use crate::pricing::Project;

/// A template of page 1 and page 2: its lines, and what its factors and columns are made of.
pub trait Template {
    /// A line of page 1 that takes a figure.
    type Line: Copy + 'static;

    /// How many lines take a figure.
    const LINE_COUNT: usize;

    ghost LINE_COUNT: { ℕ };

    // the lines, the cost elements and what line 4 multiplies
    ghost rules: { Rules Self.Line };

    // the lines that take a figure, as printed, and the sums between them
    ghost lines_add_up: { Rules Self.Line → Entered → Cost → Type 0 };

    // what each factor divides, line by line, given the amount on each line by its printed number
    ghost factors_divide: { ℕ → Amounts → Worked → Type 0 };

    /// The lines in their order.
    fn lines() -> &'static [Self::Line]
        ensures { result.now ≡ rules.lines };

    /// What is printed as the number of a line.
    fn label(line: Self::Line) -> &'static [u8]
        ensures { result.now ≡ rules.label_of line };

    /// The line at a place of the page, from 0.
    final fn line_at(place: usize) -> Option<Self::Line>
        ensures { result ≡ slice_get rules.lines place }
    {
        Self::lines().get(place).copied()
    }

    /// The line with this printed label.
    final fn labelled(label: &[u8]) -> Option<Self::Line>
        ensures { result ≡ line_labelled rules.label_of rules.lines label.now }
    {
        Self::lines()
            .iter()
            .copied()
            .find(|line| Self::label(*line) == label)
    }

    /// The figure that a line holds.
    // No `From`: a law would have to tie what it gives to the template's rules, as this clause does.
    fn figure(line: Self::Line) -> Figure
        ensures { result ≡ rules.figure_of line };

    /// The cost elements that the figures make.
    fn elements(figures: &Figures) -> Elements
        ensures { result ≡ rules.elements_of figures.now };

    /// Whether line 3d, where there is one, is from 0 to line 3.
    fn adjusted_om_fits(figures: &Figures) -> bool
        ensures { result ≡ rules.adjusted_om_fits figures.now };

    /// What line 4 multiplies, of a project.
    fn om_base(project: &Project) -> i64
        ensures { result ≡ rules.om_base project.now };

    ghost line_count_is_the_number_of_lines: { LINE_COUNT ≡ length rules.lines };

    ghost elements_are_small: { (f : Entered) → InRange f → SmallElements (rules.elements_of f) };

    ghost printed_lines_add_up: { (f : Entered) → lines_add_up rules f (rules.elements_of f) };

    ghost factors_divide_printed_lines: { (scale : ℕ) (f : Entered) (p : Worked) → PageOneFollows scale (rules.elements_of f) p → factors_divide scale (amount_on rules f) p };

    ghost om_base_is_within_the_largest_amount: { (j : Priced) → ProjectFits j → unsigned_abs (rules.om_base j) ≤ 10000000000 };
}
