ghost use Rattle.std.specs.Prelude.{◌≡◌};

use crate::figures::{Figure, Figures};

/// Transmission O&M: line 3d over line 1a.
#[derive(Clone, Copy)]
pub struct TransmissionOm {
    pub adjusted_om: i128,
    pub accumulated_depreciation: i128,
}

/// What line 9 is made of: each amount is divided by gross plant.
#[derive(Clone, Copy)]
pub struct ExpenseElements {
    pub other_om: i128,
    pub general_depreciation: i128,
    pub other_taxes: i128,
    pub gross_plant: i128,
}

impl ExpenseElements {
    ghost use Rattle.sheets.specs.Attachments.{expense_elements};

    /// The elements of the figures, and of the O&M that is divided by gross plant.
    pub(crate) fn of(other_om: i128, figures: &Figures) -> Self
        ensures { result ≡ expense_elements other_om figures.now }
    {
        ExpenseElements {
            other_om,
            general_depreciation: figures.amount(Figure::GeneralDepreciation),
            other_taxes: figures.amount(Figure::OtherTaxes),
            gross_plant: figures.amount(Figure::GrossPlant),
        }
    }
}

/// What line 14 is made of: each amount is divided by net plant.
#[derive(Clone, Copy)]
pub struct ReturnElements {
    pub income_taxes: i128,
    pub return_on_rate_base: i128,
    pub net_plant: i128,
}

impl ReturnElements {
    ghost use Rattle.sheets.specs.Attachments.{return_elements};

    /// The elements of the figures, and of the net plant that they are divided by.
    pub(crate) fn of(net_plant: i128, figures: &Figures) -> Self
        ensures { result ≡ return_elements net_plant figures.now }
    {
        ReturnElements {
            income_taxes: figures.amount(Figure::IncomeTaxes),
            return_on_rate_base: figures.amount(Figure::ReturnOnRateBase),
            net_plant,
        }
    }
}

/// The cost elements of page 1, in dollars, each with the plant that it is divided by. Some
/// templates have no line 4.
#[derive(Clone, Copy)]
pub struct Elements {
    pub transmission_om: Option<TransmissionOm>,
    pub expense: ExpenseElements,
    pub returns: ReturnElements,
}
