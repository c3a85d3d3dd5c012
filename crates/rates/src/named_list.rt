ghost use Rattle.rates.specs.Named.{named_rates};
ghost use Rattle.rates.specs.Lists.{flat_rates, quarter_rates};
ghost use Rattle.rates.specs.declared.named_list.NamedList.TheVariants.{Flat, Quarter, HoldingFlat, HoldingQuarter};
ghost use Rattle.rates.specs.Bounds.{held_has_no_rate_above_the_highest};
ghost use Rattle.std.proofs.Common.{rules};

use crate::flat_list::FlatList;
use crate::holding_list::HoldingList;
use crate::quarter_list::QuarterList;
use crate::rate_list::RateList;

/// The lists that one line of text can name.
#[derive(Drop)]
pub enum NamedList {
    /// `flat,RATE`
    Flat(FlatList),
    /// `quarter,FIRST,RATE,…`
    Quarter(QuarterList),
    /// `holding,flat,RATE`
    HoldingFlat(HoldingList<FlatList>),
    /// `holding,quarter,FIRST,RATE,…`
    HoldingQuarter(HoldingList<QuarterList>),
}

impl RateList for NamedList {
    ghost rates = { named_rates };

    ghost no_rate_above_the_highest = { elim [
      | Flat list ↦ Prim.search rules
      | Quarter list ↦ Prim.search rules
      | HoldingFlat list ↦ held_has_no_rate_above_the_highest (flat_rates list.list) (Prim.search rules)
      | HoldingQuarter list ↦ held_has_no_rate_above_the_highest (quarter_rates list.list) (Prim.search rules)
    ] };

    fn rate(&self, month: u32) -> Option<u32> {
        // One arm for each form of a line: picking a `&dyn RateList` has the same four arms.
        match self {
            NamedList::Flat(list) => list.rate(month),
            NamedList::Quarter(list) => list.rate(month),
            NamedList::HoldingFlat(list) => list.rate(month),
            NamedList::HoldingQuarter(list) => list.rate(month),
        }
    }
}
