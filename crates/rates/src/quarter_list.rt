ghost use Rattle.std.specs.Prelude.{◌≡◌};
ghost use Rattle.rates.specs.Lists.{quarter_rates};
ghost use Rattle.rates.specs.Given.{quarterly, QuarterByQuarter};
ghost use Rattle.std.proofs.Common.{rules};

use crate::rate_list::{RateList, counted_rate};

/// The quarter list: one rate of a run after the other, a quarter each.
#[derive(Drop)]
pub struct QuarterList {
    // quarters counted through: the first of a year is 4 × year
    first: u32,
    run: Vec<u32>,
}

impl QuarterList {
    /// The list whose rates stand one to a quarter, from the quarter `first` on (January to March of a
    /// year is 4 × year); a rate above the highest counts as nothing.
    pub fn new(first: u32, run: Vec<u32>) -> QuarterList
        ensures rates_stand_one_to_a_quarter { quarter_rates result ≡ quarterly first run.items }
        ensures each_rate_stands_for_three_months { QuarterByQuarter first run.items (quarter_rates result) }
    {
        QuarterList { first, run }
    }
}

impl RateList for QuarterList {
    ghost rates = { quarter_rates };

    ghost no_rate_above_the_highest = { Prim.search rules };

    fn rate(&self, month: u32) -> Option<u32> {
        let place = (month / 3).checked_sub(self.first)?;
        let rate = self.run.get(place as usize)?;
        counted_rate(*rate)
    }
}
