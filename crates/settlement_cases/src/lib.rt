//! The worked cases of the book: one table of what the definitions of settlement give, proved as a whole.
#![tactic(auto)]

ghost use Rattle.settlement_cases.specs.Table.{SettledCases};
ghost use Rattle.std.specs.Prelude.{◌≡◌};

/// How many worked cases the table has; the contract is the table.
pub fn settled_cases() -> u8
    ensures settled_cases_hold { SettledCases }
    ensures counts_17_cases { result ≡ 17 }
{
    17
}
