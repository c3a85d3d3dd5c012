ghost use Rattle.std.specs.NonZero.{non_zero_u64_get};
ghost use Rattle.std.specs.Prelude.{◌≡◌, ◌<◌, ◌≤◌, ℤ, pos, ◌*◌, ◌+ℤ◌, ◌-ℤ◌, ◌*ℤ◌, ◌≤ℤ◌, unsigned_abs, IsTrue};
ghost use Rattle.amounts.specs.Rounding.{rounded, rounded_down};
ghost use Rattle.settlement.specs.Closing.{is_true_up};
ghost use Rattle.settlement.specs.Outcomes.{in_dollars, in_money};
ghost use Rattle.settlement.specs.Rules.{cents, charge, charge_scale, interest_scale, left_over, rate_scale, share, true_up as true_up_of, usage_rate};

use amounts::{rounded, rounded_down};
use std::num::NonZeroU64;

/// Parts of a dollar in which the usage rate counts.
const RATE_SCALE: i64 = 10_000;

/// A filed or stated amount, or column 16, in dollars.
pub(crate) fn in_dollars(dollars: i64) -> bool
    ensures { result ≡ in_dollars dollars }
{
    (0..=100_000_000).contains(&dollars)
}

/// The year's money, in cents.
pub(crate) fn in_money(cents: i64) -> bool
    ensures { result ≡ in_money cents }
{
    (0..=90_000_000_000).contains(&cents)
}

/// A true-up, in dollars.
pub(crate) fn is_true_up(dollars: i64) -> bool
    ensures { result ≡ is_true_up dollars }
{
    (-100_000_000..=100_000_000).contains(&dollars)
}

fn scale(parts: u64) -> NonZeroU64
    requires { 0 < parts }
    ensures { non_zero_u64_get result ≡ parts }
{
    NonZeroU64::new(parts).unwrap()
}

/// Total over forecast.
pub(crate) fn usage_rate(total: i64, forecast: NonZeroU64) -> i64
    requires { unsigned_abs total ≤ 6400000000 }
    ensures { result ≡ usage_rate rate_scale total (non_zero_u64_get forecast) }
{
    rounded(total * RATE_SCALE, forecast)
}

fn times(amount: i64, factor: i64) -> i64
    requires amount { unsigned_abs amount ≤ 200000000000 }
    requires factor { unsigned_abs factor ≤ 10000000 }
    ensures value { result ≡ amount *ℤ factor }
    ensures bound { unsigned_abs result ≤ unsigned_abs amount * 10000000 }
{
    amount * factor
}

/// Kilowatt-hours at a usage rate, in cents.
#[tactic(auto, using(amounts::proofs::Laws::rounded_within))]
pub(crate) fn charge(kwh: u64, rate: i64) -> i64
    requires kwh { kwh ≤ 10000000000 }
    requires rate { unsigned_abs rate ≤ 1000000 }
    ensures value { result ≡ charge charge_scale kwh rate }
    ensures bound { unsigned_abs result ≤ 1000000000000 }
{
    rounded(times(kwh as i64, rate), scale(100_000))
}

/// The charge on kilowatt-hours, less the charge on those that they replace.
pub(crate) fn charge_change(replaced: u64, kwh: u64, rate: i64) -> i64
    requires replaced { replaced ≤ 10000000000 }
    requires kwh { kwh ≤ 10000000000 }
    requires rate { unsigned_abs rate ≤ 1000000 }
    ensures value { result ≡ charge charge_scale kwh rate -ℤ charge charge_scale replaced rate }
    ensures bound { unsigned_abs result ≤ 2000000000000 }
{
    charge(kwh, rate) - charge(replaced, rate)
}

/// Interest on a difference in cents, by a factor in ten-millionths.
#[tactic(auto, using(amounts::proofs::Laws::rounded_within))]
pub(crate) fn interest(difference: i64, factor: u32) -> i64
    requires difference { unsigned_abs difference ≤ 200000000000 }
    requires factor { factor ≤ 2400000 }
    ensures value { result ≡ rounded (difference *ℤ pos factor) interest_scale }
    ensures bound { unsigned_abs result ≤ 200000000000 }
{
    rounded(times(difference, i64::from(factor)), scale(10_000_000))
}

/// Cents in whole dollars.
#[tactic(auto, using(amounts::proofs::Laws::rounded_within))]
pub(crate) fn true_up(cents: i64) -> i64
    requires { unsigned_abs cents ≤ 1000000000000 }
    ensures value { result ≡ true_up_of cents }
    ensures bound { unsigned_abs result ≤ 10000000000 }
{
    rounded(cents, scale(100))
}

/// Dollars in cents.
pub(crate) fn cents(dollars: i64) -> i64
    requires { unsigned_abs dollars ≤ 10000000000 }
    ensures value { result ≡ cents dollars }
    ensures bound { unsigned_abs result ≤ unsigned_abs dollars * 100 }
{
    100 * dollars
}

/// What a row is settled by: difference, interest and the cents that it kept.
pub(crate) fn settling(difference: i64, interest: i64, kept: i64) -> i64
    requires difference { unsigned_abs difference ≤ 200000000000 }
    requires interest { unsigned_abs interest ≤ 200000000000 }
    requires kept { unsigned_abs kept ≤ 50 }
    ensures value { result ≡ (difference +ℤ interest) +ℤ kept }
    ensures bound { unsigned_abs result ≤ 1000000000000 }
{
    difference + interest + kept
}

/// The cents that a true-up leaves.
#[tactic(auto, using(settlement::proofs::Interest::kept_within_fifty))]
pub(crate) fn left_over(settling: i64, true_up: i64) -> i64
    requires settling { unsigned_abs settling ≤ 1000000000000 }
    requires bound { unsigned_abs true_up ≤ 10000000000 }
    requires true_up { true_up ≡ true_up_of settling }
    ensures value { result ≡ left_over settling }
    ensures within_fifty { unsigned_abs result ≤ 50 }
{
    settling - cents(true_up)
}

/// Money × column ÷ total, rounded down.
fn part(money: i64, column: i64, total: NonZeroU64) -> i64
    requires money { IsTrue (in_money money) }
    requires column { IsTrue (in_dollars column) }
    ensures { result ≡ rounded_down (money *ℤ column) (non_zero_u64_get total) }
{
    rounded_down(money * column, total)
}

/// The part of the money that a column is of the total, rounded down; nothing of a total of 0.
#[tactic(auto, using(crate::proofs::Shares::share_over, crate::proofs::Shares::share_in_money, crate::proofs::Shares::share_of_no_total))]
pub(crate) fn share(money: i64, total: i64, column: i64) -> i64
    requires money { IsTrue (in_money money) }
    requires column { IsTrue (in_dollars column) }
    requires total { pos 0 ≤ℤ total }
    ensures value { result ≡ share money total column }
    ensures range { column ≤ℤ total → IsTrue (in_money result) }
{
    match NonZeroU64::new(total.unsigned_abs()) {
        Some(total) => part(money, column, total),
        None => 0,
    }
}
