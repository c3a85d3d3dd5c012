//! The worked cases: one table of what the definitions give that the contracts cite, proved as a whole.
#![tactic(auto)]

ghost use Rattle.cases.specs.Table.{WorkedCases};
ghost use Rattle.std.specs.Prelude.{◌≡◌};

#[cfg(test)]
mod tests;

/// How many worked cases the table has; the contract is the table.
pub fn worked_cases() -> u8
    ensures worked_cases_hold { WorkedCases }
    ensures counts_26_cases { result ≡ 26 }
{
    26
}
