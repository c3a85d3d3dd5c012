ghost use Rattle.std.specs.Prelude.{◌≡◌};
ghost use Rattle.rates.specs.Rates.{Rates, NoRateAboveTheHighest, counted};

/// The highest rate, in ten-millionths per month.
pub const HIGHEST_RATE: u32 = 100_000;

/// A rate list: the rate of each month that has one, in ten-millionths for one month.
pub trait RateList {
    // for each month its rate, or nothing
    ghost rates: { Self → Rates };

    /// The rate of a month, if it has one; January of a year is month 12 × year.
    fn rate(&self, month: u32) -> Option<u32>
        ensures { result ≡ rates self.now month };

    // every rate is within 0 to the highest
    ghost no_rate_above_the_highest: { (list : Self) → NoRateAboveTheHighest (rates list) };
}

/// A given rate; one above the highest counts as nothing.
pub(crate) fn counted_rate(rate: u32) -> Option<u32>
    ensures { result ≡ counted rate }
{
    (rate <= HIGHEST_RATE).then_some(rate)
}
