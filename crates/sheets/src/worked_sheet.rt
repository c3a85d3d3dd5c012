ghost use Rattle.std.specs.Prelude.{◌≡◌, ◌≤◌, true, pos, IfOk, unsigned_abs};
ghost use Rattle.std.specs.NonZero.{non_zero_u64_get};
ghost use Rattle.questions.specs.Questions.{within};
ghost use Rattle.sheets.specs.Elements.{Small};
ghost use Rattle.sheets.specs.Factors.{factors_fit, hundredths};
ghost use Rattle.sheets.specs.Figures.{figure_in};
ghost use Rattle.sheets.specs.Tariff.{PageTwoFollows};
ghost use Rattle.sheets.specs.Pricing.{ColumnsInRange, ProjectFits, charge, columns_of, om_charge, priced, project_fits};

use crate::elements::Elements;
use crate::factors::Factors;
use crate::figures::{Figure, Figures, LARGEST_AMOUNT};
use crate::page_one::SCALE;
use crate::pricing::{Columns, Project};
use crate::refusal::Refusal;
use crate::template::Template;
use amounts::rounded;
use std::marker::{Model, PhantomData};
use std::num::NonZeroU64;

/// A sheet whose page 1 is finished. It takes no figure; it prices projects.
#[derive(Drop)]
pub struct WorkedSheet<T: Template> {
    pub(crate) figures: Figures,
    pub(crate) factors: Factors,
    pub(crate) template: PhantomData<T>,
}

impl<T: Template> Model for WorkedSheet<T> {
    ghost use Rattle.std.specs.Prelude.{◌≡◌, true};
    ghost use Rattle.sheets.specs.Factors.{factors_fit, hundredths};
    ghost use Rattle.sheets.specs.Worked.{Worked};

    ghost Value = { Worked };

    ghost view = { λ s. record { figures = s.figures; factors = s.factors } };

    ghost invariant = { λ s. factors_fit hundredths s.factors ≡ true };
}

/// The largest annual revenue requirement, in dollars.
const LARGEST_REQUIREMENT: i64 = 100_000_000;

/// The scale of a factor as a divisor.
// A function, since no constant's value may call `new`.
fn scale() -> NonZeroU64
    ensures { non_zero_u64_get result ≡ hundredths }
{
    NonZeroU64::new(SCALE.unsigned_abs()).unwrap()
}

/// Whether the amounts of a project are in their ranges.
fn project_fits(project: &Project) -> bool
    ensures { result ≡ project_fits project.now }
{
    (0..=LARGEST_AMOUNT).contains(&project.gross_plant)
        && (0..=LARGEST_AMOUNT).contains(&project.depreciation_expense)
        && (0..=project.gross_plant).contains(&project.accumulated_depreciation)
}

/// Whether the annual revenue requirement is in its range.
fn requirement_fits(columns: &Columns) -> bool
    ensures { result ≡ within (pos 0) (pos 100000000) columns.now.annual_revenue_requirement }
{
    (0..=LARGEST_REQUIREMENT).contains(&columns.annual_revenue_requirement)
}

/// A charge of page 2, so small that the charges of a project can be added.
#[derive(Clone, Copy)]
struct Charge {
    dollars: i64,
    ghost small: { Small dollars },
}

impl Charge {
    /// An amount times a factor, to the nearest dollar.
    fn of(amount: i64, factor: i64) -> Self
        requires { (unsigned_abs amount ≤ 10000000000) × (unsigned_abs factor ≤ 100000) }
        ensures { result.dollars ≡ charge hundredths amount factor }
    {
        Charge {
            dollars: rounded(amount * factor, scale()),
        }
    }
}

impl<T: Template> WorkedSheet<T> {
    /// What line 4, where the template has one, charges on its base.
    fn om_charge(&self, base: i64) -> Charge
        requires { unsigned_abs base ≤ 10000000000 }
        ensures { result.dollars ≡ om_charge hundredths self.now.factors.transmission_om base }
    {
        let om_factor = self.factors.transmission_om;
        om_factor.map_or(Charge { dollars: 0 }, |factor| Charge::of(base, factor))
    }

    fn columns(&self, project: &Project) -> Columns
        requires { ProjectFits project.now }
        ensures value { result ≡ columns_of hundredths self.now.factors T.rules.om_base project.now }
        ensures bound { Small result.annual_return_charge }
    {
        let om = self.om_charge(T::om_base(project)).dollars;
        let other = Charge::of(project.gross_plant, self.factors.expense.total).dollars;
        let net_plant = project.gross_plant - project.accumulated_depreciation;
        let returned = Charge::of(net_plant, self.factors.returns.total).dollars;
        Columns {
            transmission_om_expense: om,
            other_expense: other,
            annual_expense_charge: om + other,
            annual_return_charge: returned,
            depreciation_expense: project.depreciation_expense,
            annual_revenue_requirement: om + other + returned + project.depreciation_expense,
        }
    }

    /// Prices a project: its columns, or the first question that is answered no.
    pub fn price(&self, project: Project) -> Result<Columns, Refusal>
        ensures outcome { result ≡ priced hundredths self.now.factors T.rules.om_base project }
        ensures follows_the_tariff { IfOk result (PageTwoFollows hundredths self.now.factors T.rules.om_base project) }
        ensures columns_in_range { IfOk result ColumnsInRange }
    {
        if !project_fits(&project) {
            return Err(Refusal::ProjectOutOfRange);
        }
        let columns = self.columns(&project);
        if !requirement_fits(&columns) {
            return Err(Refusal::RequirementOutOfRange);
        }
        Ok(columns)
    }

    /// A figure as it was entered.
    pub fn figure(&self, figure: Figure) -> Option<i64>
        ensures { result ≡ figure_in figure self.now.figures }
    {
        self.figures.get(figure)
    }

    /// The cost elements of page 1, entered or worked out.
    pub fn elements(&self) -> Elements
        ensures { result ≡ T.rules.elements_of self.now.figures }
    {
        T::elements(&self.figures)
    }

    /// The factors of page 1.
    pub fn factors(&self) -> Factors
        ensures value { result ≡ self.now.factors }
        ensures page_two_factors_are_within_1000_percent { factors_fit hundredths result ≡ true }
    {
        self.factors
    }
}
