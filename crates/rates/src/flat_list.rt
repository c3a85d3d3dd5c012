ghost use Rattle.std.specs.Prelude.{◌≡◌};
ghost use Rattle.rates.specs.Lists.{flat_rates};
ghost use Rattle.rates.specs.Given.{flat};
ghost use Rattle.std.proofs.Common.{rules};

use crate::rate_list::{RateList, counted_rate};

/// The flat list: the same rate, whatever the month.
#[derive(Clone, Copy)]
pub struct FlatList {
    // as given: a rate limited by `new` would need a ghost field for `no_rate_above_the_highest`, and is no plainer
    rate: u32,
}

impl FlatList {
    /// The list with this rate in every month; a rate above the highest counts as nothing.
    pub fn new(rate: u32) -> FlatList
        ensures { flat_rates result ≡ flat rate }
    {
        FlatList { rate }
    }
}

impl RateList for FlatList {
    ghost rates = { flat_rates };

    ghost no_rate_above_the_highest = { Prim.search rules };

    fn rate(&self, _month: u32) -> Option<u32> {
        counted_rate(self.rate)
    }
}
