/// Allocation factors of the expense section: lines 4b (line 4 in Attachment CC), 6 and 8, and
/// line 9, which is rounded once from their exact sum.
#[derive(Clone, Copy)]
pub struct ExpenseFactors {
    pub other_om: i64,
    pub general_depreciation: i64,
    pub other_taxes: i64,
    pub total: i64,
}

/// Allocation factors of the return section: lines 11 and 13, and line 14, which is rounded once
/// from their exact sum.
#[derive(Clone, Copy)]
pub struct ReturnFactors {
    pub income_taxes: i64,
    pub return_on_rate_base: i64,
    pub total: i64,
}

/// The allocation factors of page 1 in hundredths of a percent. Line 4 for transmission O&M is in
/// some templates only.
#[derive(Clone, Copy)]
pub struct Factors {
    pub transmission_om: Option<i64>,
    pub expense: ExpenseFactors,
    pub returns: ReturnFactors,
}
