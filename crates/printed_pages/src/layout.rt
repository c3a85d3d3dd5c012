use sheets::{AttachmentCc, AttachmentMm, Columns, Figure, Template};

/// What a line of page 1 shows beside its name.
#[derive(Clone, Copy)]
pub enum Shows {
    Heading,
    Entered(Figure),
    NetPlant,
    AdjustedOm,
    OtherOm,
    OmFactor,
    OtherOmFactor,
    DepreciationFactor,
    OtherTaxesFactor,
    IncomeTaxesFactor,
    RateBaseFactor,
}

/// A line of page 1 as the template prints it.
#[derive(Clone, Copy)]
pub struct PrintedLine {
    pub label: &'static str,
    pub name: &'static str,
    pub shows: Shows,
}

/// What a column of page 2 shows of a project.
#[derive(Clone, Copy)]
pub enum Cell {
    GrossPlant,
    AccumulatedDepreciation,
    NetPlant,
    OmFactor,
    ExpenseFactor,
    ReturnFactor,
    OmExpense,
    OtherExpense,
    Summed(Summed),
}

/// The columns that have a sum below them.
#[derive(Clone, Copy)]
pub enum Summed {
    ExpenseCharge,
    ReturnCharge,
    DepreciationExpense,
    Requirement,
}

impl Summed {
    ghost use Rattle.std.specs.Prelude.{◌≡◌};
    ghost use Rattle.printed_pages.specs.Sums.{amount_in};

    pub fn of(self, columns: &Columns) -> i64
        ensures is_the_projects_amount { result ≡ amount_in self columns.now }
    {
        match self {
            Summed::ExpenseCharge => columns.annual_expense_charge,
            Summed::ReturnCharge => columns.annual_return_charge,
            Summed::DepreciationExpense => columns.depreciation_expense,
            Summed::Requirement => columns.annual_revenue_requirement,
        }
    }
}

/// A column of page 2: the three lines of its heading, and what it shows.
#[derive(Clone, Copy)]
pub struct Column {
    pub heading: [&'static str; 3],
    pub cell: Cell,
}

/// A template as it is printed. Page 1 begins with lines of its own; page 2 has two bands of
/// columns, numbered on from 3.
#[derive(Clone, Copy)]
pub struct Layout {
    pub attachment: &'static str,
    pub first_lines: &'static [PrintedLine],
    pub expense_name: &'static str,
    pub title: &'static str,
    pub expense_columns: &'static [Column],
    pub return_columns: &'static [Column],
    pub total_name: &'static str,
}

/// A template that can be printed.
pub trait Printed: Template {
    // a function, as a constant may not refer to statics
    fn layout() -> Layout;
}

impl Printed for AttachmentMm {
    fn layout() -> Layout {
        Layout {
            attachment: "MM",
            first_lines: &MM_LINES,
            expense_name: "Annual Allocation Factor for Other Expense",
            title: "Multi-Value Project (MVP) Revenue Requirement Calculation",
            expense_columns: &MM_EXPENSE_COLUMNS,
            return_columns: &RETURN_COLUMNS,
            total_name: "MVP Total Annual Revenue Requirements",
        }
    }
}

impl Printed for AttachmentCc {
    fn layout() -> Layout {
        Layout {
            attachment: "CC",
            first_lines: &CC_LINES,
            expense_name: "Annual Allocation Factor for Expense",
            title: "Cross-Border Network Upgrade Charge (NUC) Calculation by Project",
            expense_columns: &CC_EXPENSE_COLUMNS,
            return_columns: &RETURN_COLUMNS,
            total_name: "Annual Total",
        }
    }
}

static MM_LINES: [PrintedLine; 13] = [
    PrintedLine {
        label: "1",
        name: "Gross Transmission Plant - Total",
        shows: Shows::Entered(Figure::GrossPlant),
    },
    PrintedLine {
        label: "1a",
        name: "Transmission Accumulated Depreciation",
        shows: Shows::Entered(Figure::AccumulatedDepreciation),
    },
    PrintedLine {
        label: "2",
        name: "Net Transmission Plant - Total",
        shows: Shows::NetPlant,
    },
    PrintedLine {
        label: "",
        name: "O&M TRANSMISSION EXPENSE",
        shows: Shows::Heading,
    },
    PrintedLine {
        label: "3",
        name: "Total O&M Allocated to Transmission",
        shows: Shows::Entered(Figure::TotalOm),
    },
    PrintedLine {
        label: "3a",
        name: "Transmission O&M",
        shows: Shows::Entered(Figure::TransmissionOm),
    },
    PrintedLine {
        label: "3b",
        name: "Less: LSE Expenses included in above, if any",
        shows: Shows::Entered(Figure::LseExpenses),
    },
    PrintedLine {
        label: "3c",
        name: "Less: Account 565 included in above, if any",
        shows: Shows::Entered(Figure::Account565),
    },
    PrintedLine {
        label: "3d",
        name: "Adjusted Transmission O&M",
        shows: Shows::AdjustedOm,
    },
    PrintedLine {
        label: "4",
        name: "Annual Allocation Factor for Transmission O&M",
        shows: Shows::OmFactor,
    },
    PrintedLine {
        label: "",
        name: "OTHER O&M EXPENSE",
        shows: Shows::Heading,
    },
    PrintedLine {
        label: "4a",
        name: "Other O&M Allocated to Transmission",
        shows: Shows::OtherOm,
    },
    PrintedLine {
        label: "4b",
        name: "Annual Allocation Factor for Other O&M",
        shows: Shows::OtherOmFactor,
    },
];

static CC_LINES: [PrintedLine; 5] = [
    PrintedLine {
        label: "1",
        name: "Gross Transmission Plant - Total",
        shows: Shows::Entered(Figure::GrossPlant),
    },
    PrintedLine {
        label: "2",
        name: "Net Transmission Plant - Total",
        shows: Shows::Entered(Figure::NetPlant),
    },
    PrintedLine {
        label: "",
        name: "O&M EXPENSE",
        shows: Shows::Heading,
    },
    PrintedLine {
        label: "3",
        name: "Total O&M Allocated to Transmission",
        shows: Shows::Entered(Figure::TotalOm),
    },
    PrintedLine {
        label: "4",
        name: "Annual Allocation Factor for O&M",
        shows: Shows::OtherOmFactor,
    },
];

/// Lines 5 to 8, which every template has.
pub static EXPENSE_LINES: [PrintedLine; 6] = [
    PrintedLine {
        label: "",
        name: "GENERAL AND COMMON (G&C) DEPRECIATION EXPENSE",
        shows: Shows::Heading,
    },
    PrintedLine {
        label: "5",
        name: "Total G&C Depreciation Expense",
        shows: Shows::Entered(Figure::GeneralDepreciation),
    },
    PrintedLine {
        label: "6",
        name: "Annual Allocation Factor for G&C Depreciation Expense",
        shows: Shows::DepreciationFactor,
    },
    PrintedLine {
        label: "",
        name: "TAXES OTHER THAN INCOME TAXES",
        shows: Shows::Heading,
    },
    PrintedLine {
        label: "7",
        name: "Total Other Taxes",
        shows: Shows::Entered(Figure::OtherTaxes),
    },
    PrintedLine {
        label: "8",
        name: "Annual Allocation Factor for Other Taxes",
        shows: Shows::OtherTaxesFactor,
    },
];

/// Lines 10 to 13, which every template has.
pub static RETURN_LINES: [PrintedLine; 6] = [
    PrintedLine {
        label: "",
        name: "INCOME TAXES",
        shows: Shows::Heading,
    },
    PrintedLine {
        label: "10",
        name: "Total Income Taxes",
        shows: Shows::Entered(Figure::IncomeTaxes),
    },
    PrintedLine {
        label: "11",
        name: "Annual Allocation Factor for Income Taxes",
        shows: Shows::IncomeTaxesFactor,
    },
    PrintedLine {
        label: "",
        name: "RETURN",
        shows: Shows::Heading,
    },
    PrintedLine {
        label: "12",
        name: "Return on Rate Base",
        shows: Shows::Entered(Figure::ReturnOnRateBase),
    },
    PrintedLine {
        label: "13",
        name: "Annual Allocation Factor for Return on Rate Base",
        shows: Shows::RateBaseFactor,
    },
];

const GROSS_PLANT: Column = Column {
    heading: ["Project", "Gross", "Plant"],
    cell: Cell::GrossPlant,
};

const EXPENSE_CHARGE: Column = Column {
    heading: ["Annual", "Expense", "Charge"],
    cell: Cell::Summed(Summed::ExpenseCharge),
};

static MM_EXPENSE_COLUMNS: [Column; 7] = [
    GROSS_PLANT,
    Column {
        heading: ["Project", "Accumulated", "Depreciation"],
        cell: Cell::AccumulatedDepreciation,
    },
    Column {
        heading: ["Trans. O&M", "Allocation", "Factor"],
        cell: Cell::OmFactor,
    },
    Column {
        heading: ["Allocation", "for Trans.", "O&M Expense"],
        cell: Cell::OmExpense,
    },
    Column {
        heading: ["Other Exp.", "Allocation", "Factor"],
        cell: Cell::ExpenseFactor,
    },
    Column {
        heading: ["Allocation", "for Other", "Expense"],
        cell: Cell::OtherExpense,
    },
    EXPENSE_CHARGE,
];

static CC_EXPENSE_COLUMNS: [Column; 3] = [
    GROSS_PLANT,
    Column {
        heading: ["Allocation", "Factor for", "Expense"],
        cell: Cell::ExpenseFactor,
    },
    EXPENSE_CHARGE,
];

static RETURN_COLUMNS: [Column; 5] = [
    Column {
        heading: ["Project", "Net", "Plant"],
        cell: Cell::NetPlant,
    },
    Column {
        heading: ["Allocation", "Factor for", "Return"],
        cell: Cell::ReturnFactor,
    },
    Column {
        heading: ["Annual", "Return", "Charge"],
        cell: Cell::Summed(Summed::ReturnCharge),
    },
    Column {
        heading: ["Project", "Depreciation", "Expense"],
        cell: Cell::Summed(Summed::DepreciationExpense),
    },
    Column {
        heading: ["Annual", "Revenue", "Requirement"],
        cell: Cell::Summed(Summed::Requirement),
    },
];
