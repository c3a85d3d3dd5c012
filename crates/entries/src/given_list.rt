ghost use Rattle.std.specs.Prelude.{◌≡◌};
ghost use Rattle.entries.specs.Rates.{rates_in};

use crate::numbers::number_u32;
use rates::{FlatList, HoldingList, NamedList, QuarterList};
use std::alloc::{AllocError, Global};
use std::marker::Model;

/// A rate list as an entry gives it.
#[derive(Drop)]
pub struct ListEntry<'a> {
    /// Whether it holds the rates of the list.
    pub holding: bool,
    pub list: GivenList<'a>,
}

/// A list below any holding.
#[derive(Drop)]
pub enum GivenList<'a> {
    /// `flat,RATE`
    Flat(u32),
    /// `quarter,FIRST,RATE,…`
    Quarter { first: u32, rates: GivenRates<'a> },
}

/// The rates of a quarter list, one or more, as words of the line.
#[derive(Drop)]
pub struct GivenRates<'a> {
    words: &'a str,
}

impl<'a> Model for GivenRates<'a> {
    ghost use Rattle.std.specs.Prelude.{ℕ, List, IsSome};
    ghost use Rattle.entries.specs.Rates.{rates_in, rates_of};

    ghost Value = { List ℕ };

    ghost view = { λ r. rates_of r.words.now };

    ghost invariant = { λ r. IsSome (rates_in r.words.now) };
}

impl<'a> GivenRates<'a> {
    ghost use Rattle.std.specs.Prelude.{◌≡◌, IfOk};

    /// The rates in memory of their own.
    pub fn to_vec(&self, alloc: Global) -> Result<Vec<u32>, AllocError>
        ensures { IfOk result (λ run. run.items ≡ self.now) }
    {
        self.words
            .split(',')
            .filter_map(|word| number_u32(word))
            .collect(alloc)
    }
}

impl<'a> ListEntry<'a> {
    ghost use Rattle.std.specs.Prelude.{◌≡◌, IfOk, OnErr};
    ghost use Rattle.rates.specs.Named.{named_rates};
    ghost use Rattle.entries.specs.Lists.{HasQuarterRates, rates_given};

    /// The list that is named: rates in ten-millionths a month. `AllocError` comes only where there is no memory for the rates
    /// of a quarter list.
    pub fn named(&self, alloc: Global) -> Result<NamedList, AllocError>
        ensures list_has_the_rates_given { IfOk result (λ list. named_rates list ≡ rates_given self.now) }
        ensures want_of_memory_comes_only_with_the_rates_of_a_quarter_list { OnErr result (HasQuarterRates self.now) }
    {
        Ok(match &self.list {
            GivenList::Flat(rate) => {
                let list = FlatList::new(*rate);
                if self.holding {
                    NamedList::HoldingFlat(HoldingList::new(list))
                } else {
                    NamedList::Flat(list)
                }
            }
            GivenList::Quarter { first, rates } => {
                let list = QuarterList::new(*first, rates.to_vec(alloc)?);
                if self.holding {
                    NamedList::HoldingQuarter(HoldingList::new(list))
                } else {
                    NamedList::Quarter(list)
                }
            }
        })
    }
}

/// The rates of words.
pub(crate) fn read_rates(words: &str) -> Option<GivenRates<'_>>
    ensures { result ≡ rates_in words.now }
{
    if !words.split(',').all(|word| number_u32(word).is_some()) {
        return None;
    }
    Some(GivenRates { words })
}
