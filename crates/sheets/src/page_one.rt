ghost use Rattle.std.specs.Prelude.{◌≡◌, ◌≤◌, true, pos, ◌*ℤ◌, IfErr, IfOk, false, unsigned_abs};
ghost use Rattle.std.specs.NonZero.{non_zero_u64_get};
ghost use Rattle.amounts.specs.Rounding.{rounded as rounded_of};
ghost use Rattle.sheets.specs.declared.refusal.Refusal.TheVariants.{BaseNotAboveZero};
ghost use Rattle.sheets.specs.Elements.{Small, SmallElements, SmallExpense, SmallOm, SmallReturn};
ghost use Rattle.sheets.specs.Factors.{above_zero, based, bases_above_zero, expense_factors, factor_fits, factors_fit, factors_of, hundredths, om_factor as om_factor_of, page_one, return_factors};

use crate::elements::{Elements, ExpenseElements, ReturnElements, TransmissionOm};
use crate::factors::{ExpenseFactors, Factors, ReturnFactors};
use crate::refusal::Refusal;
use amounts::rounded;
use std::num::NonZeroU64;

/// A factor of 1: 100 percent in hundredths of a percent.
pub(crate) const SCALE: i64 = 10_000;

/// The largest factor either way: 1,000 percent.
const LARGEST_FACTOR: i64 = 10 * SCALE;

/// A base as a divisor, where it is above 0.
fn divisor(base: i128) -> Result<NonZeroU64, Refusal>
    requires { Small base }
    ensures above_zero { IfOk result (λ d. (above_zero base ≡ true) × (non_zero_u64_get d ≡ unsigned_abs base)) }
    ensures refused { IfErr result (λ why. (above_zero base ≡ false) × (why ≡ BaseNotAboveZero)) }
{
    u64::try_from(base)
        .ok()
        .and_then(NonZeroU64::new)
        .ok_or(Refusal::BaseNotAboveZero)
}

/// An amount over a base in hundredths of a percent, rounded once.
fn factor(amount: i128, base: NonZeroU64) -> i64
    requires { unsigned_abs amount ≤ 300000000000 }
    ensures { result ≡ rounded_of (amount *ℤ pos hundredths) (non_zero_u64_get base) }
{
    rounded(amount as i64 * SCALE, base)
}

/// Line 4.
fn om_factor(om: TransmissionOm) -> Result<i64, Refusal>
    requires { SmallOm om }
    ensures { result ≡ based (above_zero om.accumulated_depreciation) (om_factor_of hundredths om) }
{
    let base = divisor(om.accumulated_depreciation)?;
    Ok(factor(om.adjusted_om, base))
}

/// Lines 4b, 6, 8 and 9.
fn expense_factors(expense: ExpenseElements) -> Result<ExpenseFactors, Refusal>
    requires { SmallExpense expense }
    ensures { result ≡ based (above_zero expense.gross_plant) (expense_factors hundredths expense) }
{
    let base = divisor(expense.gross_plant)?;
    let total = expense.other_om + expense.general_depreciation + expense.other_taxes;
    Ok(ExpenseFactors {
        other_om: factor(expense.other_om, base),
        general_depreciation: factor(expense.general_depreciation, base),
        other_taxes: factor(expense.other_taxes, base),
        total: factor(total, base),
    })
}

/// Lines 11, 13 and 14.
fn return_factors(returns: ReturnElements) -> Result<ReturnFactors, Refusal>
    requires { SmallReturn returns }
    ensures { result ≡ based (above_zero returns.net_plant) (return_factors hundredths returns) }
{
    let base = divisor(returns.net_plant)?;
    Ok(ReturnFactors {
        income_taxes: factor(returns.income_taxes, base),
        return_on_rate_base: factor(returns.return_on_rate_base, base),
        total: factor(returns.income_taxes + returns.return_on_rate_base, base),
    })
}

/// The factors of cost elements, where every base is above 0.
fn factors_of(elements: Elements) -> Result<Factors, Refusal>
    requires { SmallElements elements }
    ensures { result ≡ based (bases_above_zero elements) (factors_of hundredths elements) }
{
    Ok(Factors {
        transmission_om: elements.transmission_om.map(om_factor).transpose()?,
        expense: expense_factors(elements.expense)?,
        returns: return_factors(elements.returns)?,
    })
}

/// Whether a factor is within 1,000 percent either way.
fn factor_fits(factor: i64) -> bool
    ensures { result ≡ factor_fits hundredths factor }
{
    (-LARGEST_FACTOR..=LARGEST_FACTOR).contains(&factor)
}

/// Whether lines 4, 9 and 14 are within 1,000 percent either way.
fn factors_fit(factors: &Factors) -> bool
    ensures { result ≡ factors_fit hundredths factors.now }
{
    factors.transmission_om.is_none_or(factor_fits)
        && factor_fits(factors.expense.total)
        && factor_fits(factors.returns.total)
}

/// Page 1 of cost elements: the factors, or the first question that is answered no.
// Line 3d's answer comes as a `bool`: it is the template's, and is asked between two questions of every template.
pub(crate) fn page_one(elements: Elements, adjusted_om_fits: bool) -> Result<Factors, Refusal>
    requires { SmallElements elements }
    ensures { result ≡ page_one hundredths elements adjusted_om_fits }
{
    let factors = factors_of(elements)?;
    if !adjusted_om_fits {
        return Err(Refusal::AdjustedOmOutOfRange);
    }
    if !factors_fit(&factors) {
        return Err(Refusal::FactorOutOfRange);
    }
    Ok(factors)
}
