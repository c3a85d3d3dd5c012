/// A project of page 2, in dollars.
#[derive(Clone, Copy)]
pub struct Project {
    pub gross_plant: i64,
    pub accumulated_depreciation: i64,
    pub depreciation_expense: i64,
}

/// The columns of a priced project, in dollars. The annual expense charge is the sum of the two
/// expenses before it; the requirement is the sum of the two charges and the depreciation expense.
#[derive(Clone, Copy, PartialEq, Eq, Debug)]
pub struct Columns {
    pub transmission_om_expense: i64,
    pub other_expense: i64,
    pub annual_expense_charge: i64,
    pub annual_return_charge: i64,
    pub depreciation_expense: i64,
    pub annual_revenue_requirement: i64,
}
