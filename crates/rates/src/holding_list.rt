ghost use Rattle.std.specs.Prelude.{◌≡◌};
ghost use Rattle.rates.specs.Holding.{Holds, held, latest_before};
ghost use Rattle.rates.specs.Bounds.{held_has_no_rate_above_the_highest};
ghost use Rattle.std.proofs.Common.{rules};

use crate::rate_list::RateList;

/// How many months a rate is held.
const HELD_MONTHS: u32 = 24;

/// The holding list, over any list: where that list has no rate, the latest one of the 24 months
/// before is taken.
#[derive(Drop)]
pub struct HoldingList<L> {
    list: L,
}

impl<L: RateList> HoldingList<L> {
    /// The list that holds the rates of another.
    pub fn new(list: L) -> HoldingList<L>
        ensures stands_over_the_list { result.list ≡ list }
        ensures holds_the_latest_rate { Holds (L.rates list) (held (L.rates result.list)) }
    {
        HoldingList { list }
    }
}

impl<L: RateList> RateList for HoldingList<L> {
    ghost rates = { λ h. held (L.RateList.rates h.list) };

    ghost no_rate_above_the_highest = { Prim.search (rules, held_has_no_rate_above_the_highest) };

    fn rate(&self, month: u32) -> Option<u32> {
        self.list
            .rate(month)
            .or_else(|| latest_rate_before(&self.list, month, HELD_MONTHS))
    }
}

/// The latest rate among the `count` months before a month.
fn latest_rate_before<L: RateList>(list: &L, month: u32, count: u32) -> Option<u32>
    ensures { result ≡ latest_before (L.rates list.now) month count }
{
    (month.saturating_sub(count)..month)
        .rev()
        .find_map(|earlier| list.rate(earlier))
}
