ghost use Rattle.std.specs.Prelude.{◌≡◌, ◌^◌, ◌≤◌, unsigned_abs};
ghost use Rattle.sheets.specs.Figures.{amount_fits, amount_of, blank, figure_in, with_figure};

/// A figure of page 1, by what it means. Each template has some of them as its lines.
#[derive(Clone, Copy)]
pub enum Figure {
    GrossPlant,
    AccumulatedDepreciation,
    NetPlant,
    TotalOm,
    TransmissionOm,
    LseExpenses,
    Account565,
    GeneralDepreciation,
    OtherTaxes,
    IncomeTaxes,
    ReturnOnRateBase,
}

/// The largest amount of a figure, in dollars.
pub(crate) const LARGEST_AMOUNT: i64 = 10_000_000_000;

impl Figure {
    /// Whether the figure may have this amount: 0 to the largest, and for income taxes as far
    /// below 0.
    pub(crate) fn takes(self, amount: i64) -> bool
        ensures { result ≡ amount_fits self amount }
    {
        let lowest = match self {
            Figure::IncomeTaxes => -LARGEST_AMOUNT,
            _ => 0,
        };
        (lowest..=LARGEST_AMOUNT).contains(&amount)
    }
}

/// The figures entered so far, in dollars. One record serves every template.
// By fields: of an array the contracts of a sheet do not show the length, and so not that a figure
// reads as it was entered.
#[derive(Clone, Copy, Default)]
pub struct Figures {
    pub(crate) gross_plant: Option<i64>,
    pub(crate) accumulated_depreciation: Option<i64>,
    pub(crate) net_plant: Option<i64>,
    pub(crate) total_om: Option<i64>,
    pub(crate) transmission_om: Option<i64>,
    pub(crate) lse_expenses: Option<i64>,
    pub(crate) account_565: Option<i64>,
    pub(crate) general_depreciation: Option<i64>,
    pub(crate) other_taxes: Option<i64>,
    pub(crate) income_taxes: Option<i64>,
    pub(crate) return_on_rate_base: Option<i64>,
}

impl Figures {
    /// No figure entered.
    pub(crate) fn blank() -> Figures
        ensures { result ≡ blank }
    {
        Figures::default()
    }

    /// A figure as entered.
    pub(crate) fn get(&self, figure: Figure) -> Option<i64>
        ensures { result ≡ figure_in figure self.now }
    {
        match figure {
            Figure::GrossPlant => self.gross_plant,
            Figure::AccumulatedDepreciation => self.accumulated_depreciation,
            Figure::NetPlant => self.net_plant,
            Figure::TotalOm => self.total_om,
            Figure::TransmissionOm => self.transmission_om,
            Figure::LseExpenses => self.lse_expenses,
            Figure::Account565 => self.account_565,
            Figure::GeneralDepreciation => self.general_depreciation,
            Figure::OtherTaxes => self.other_taxes,
            Figure::IncomeTaxes => self.income_taxes,
            Figure::ReturnOnRateBase => self.return_on_rate_base,
        }
    }

    /// Replaces one figure; the others stay.
    pub(crate) fn put(&mut self, figure: Figure, amount: Option<i64>)
        ensures { self.new ≡ with_figure figure amount self.old }
    {
        match figure {
            Figure::GrossPlant => self.gross_plant = amount,
            Figure::AccumulatedDepreciation => self.accumulated_depreciation = amount,
            Figure::NetPlant => self.net_plant = amount,
            Figure::TotalOm => self.total_om = amount,
            Figure::TransmissionOm => self.transmission_om = amount,
            Figure::LseExpenses => self.lse_expenses = amount,
            Figure::Account565 => self.account_565 = amount,
            Figure::GeneralDepreciation => self.general_depreciation = amount,
            Figure::OtherTaxes => self.other_taxes = amount,
            Figure::IncomeTaxes => self.income_taxes = amount,
            Figure::ReturnOnRateBase => self.return_on_rate_base = amount,
        }
    }

    /// The amount of a figure; one that was not entered counts as 0.
    pub(crate) fn amount(&self, figure: Figure) -> i128
        ensures value { result ≡ amount_of figure self.now }
        ensures bound { unsigned_abs result ≤ 2 ^ 63 }
    {
        self.get(figure).unwrap_or(0).into()
    }
}
