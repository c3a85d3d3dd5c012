ghost use Rattle.std.specs.Prelude.{◌≡◌};
ghost use Rattle.rates.specs.Rates.{january};
ghost use Rattle.rates.specs.Factor.{AddsUp, factor_of, interest_months};

use crate::rate_list::RateList;

/// How many months of rates make a factor.
const INTEREST_MONTHS: u32 = 24;

/// The factor of a year: the sum of a list's 24 rates from its January on, or nothing if one is
/// missing.
pub fn factor<L: RateList>(list: &L, year: u16) -> Option<u32>
    ensures value { result ≡ factor_of (L.rates list.now) year }
    ensures adds_up_the_rates_of_24_months { AddsUp (L.rates list.now) (january year) interest_months result }
{
    let january = 12 * u32::from(year);
    (january..january + INTEREST_MONTHS).try_fold(0, |sum, month| Some(sum + list.rate(month)?))
}
