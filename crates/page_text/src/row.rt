ghost use Rattle.std.specs.Prelude.{◌≤◌, pos, ◌≤ℤ◌, unsigned_abs};

/// A priced project as a line of the pages has it, in dollars. The ranges keep every number, and
/// every sum over 64 rows, within its columns.
#[derive(Clone, Copy, PartialEq, Eq, Debug)]
pub struct PageRow {
    pub project_number: i64,
    pub annual_expense_charge: i64,
    pub annual_return_charge: i64,
    pub depreciation_expense: i64,
    pub annual_revenue_requirement: i64,
    ghost project_from_zero: { pos 0 ≤ℤ project_number },
    ghost project_to_limit: { project_number ≤ℤ pos 99999999 },
    ghost expense_charge_range: { unsigned_abs annual_expense_charge ≤ 120000000000 },
    ghost return_charge_range: { unsigned_abs annual_return_charge ≤ 120000000000 },
    ghost depreciation_from_zero: { pos 0 ≤ℤ depreciation_expense },
    ghost depreciation_to_limit: { depreciation_expense ≤ℤ pos 10000000000 },
    ghost requirement_from_zero: { pos 0 ≤ℤ annual_revenue_requirement },
    ghost requirement_to_limit: { annual_revenue_requirement ≤ℤ pos 100000000 },
}
