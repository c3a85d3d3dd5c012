ghost use Rattle.std.specs.Prelude.{◌≡◌};
ghost use Rattle.printed_pages.specs.Sums.{sum_of_column};

use crate::layout::{
    Cell, Column, EXPENSE_LINES, Printed, PrintedLine, RETURN_LINES, Shows, Summed,
};
use filing::PricedProject;
use printed_numbers::{ColumnNumber, Percent, SubRow, Thousands};
use sheets::{Columns, Factors, Project, WorkedSheet};
use std::fmt::Display;
use std::{fmt, io};

/// A project with its columns.
// No `PricedProject`: its number has a range, and the built-in task is asked for none.
#[derive(Clone, Copy)]
pub struct Row {
    pub number: i64,
    pub project: Project,
    pub columns: Columns,
}

impl From<&PricedProject> for Row {
    ghost from_gives = { λ priced row. (row.number ≡ priced.now.number) × (row.project ≡ priced.now.project) × (row.columns ≡ priced.now.columns) };

    fn from(priced: &PricedProject) -> Row {
        Row {
            number: priced.number,
            project: priced.project,
            columns: priced.columns,
        }
    }
}

/// What stands beside a name or in a column.
#[derive(Clone, Copy)]
enum Value {
    Amount(i128),
    Factor(i64),
}

impl Display for Value {
    fn fmt<W: fmt::Write>(&self, f: &mut fmt::Formatter<W>) -> fmt::Result {
        match *self {
            Value::Amount(amount) => Thousands(amount).fmt(f),
            Value::Factor(factor) => Percent(factor).fmt(f),
        }
    }
}

/// What a line shows beside its name, if it shows anything.
fn line_value<T: Printed>(shows: Shows, sheet: &WorkedSheet<T>) -> Option<Value> {
    let elements = sheet.elements();
    let factors = sheet.factors();
    match shows {
        Shows::Heading => None,
        Shows::Entered(figure) => sheet
            .figure(figure)
            .map(|amount| Value::Amount(amount.into())),
        Shows::NetPlant => Some(Value::Amount(elements.returns.net_plant)),
        Shows::AdjustedOm => elements
            .transmission_om
            .map(|om| Value::Amount(om.adjusted_om)),
        Shows::OtherOm => Some(Value::Amount(elements.expense.other_om)),
        Shows::OmFactor => factors.transmission_om.map(Value::Factor),
        Shows::OtherOmFactor => Some(Value::Factor(factors.expense.other_om)),
        Shows::DepreciationFactor => Some(Value::Factor(factors.expense.general_depreciation)),
        Shows::OtherTaxesFactor => Some(Value::Factor(factors.expense.other_taxes)),
        Shows::IncomeTaxesFactor => Some(Value::Factor(factors.returns.income_taxes)),
        Shows::RateBaseFactor => Some(Value::Factor(factors.returns.return_on_rate_base)),
    }
}

fn print_lines<T: Printed>(
    rt: &impl Print,
    lines: &[PrintedLine],
    sheet: &WorkedSheet<T>,
) -> io::Result<()> {
    for line in lines {
        let PrintedLine { label, name, shows } = *line;
        match line_value(shows, sheet) {
            None => println!(rt; "\n      {name}")?,
            Some(Value::Amount(amount)) => {
                println!(rt; "{label:<4}  {name:<54}{:>18}", Thousands(amount))?;
            }
            Some(Value::Factor(factor)) => {
                let factor = Percent(factor);
                println!(rt; "{label:<4}  {name:<54}{factor:>18}{factor:>12}")?;
            }
        }
    }
    Ok(())
}

fn print_total_factor(rt: &impl Print, label: &str, name: &str, factor: i64) -> io::Result<()> {
    println!(rt; "{label:<4}  {name:<72}{:>12}", Percent(factor))
}

/// Page 1 in the order of the template.
fn print_page_one<T: Printed>(rt: &impl Print, sheet: &WorkedSheet<T>) -> io::Result<()> {
    let layout = T::layout();
    let factors = sheet.factors();
    println!(rt;
        "Attachment {}, page 1 of 2{:>52}{:>12}",
        layout.attachment, "(3)", "(4)"
    )?;
    println!(rt; "Line{:>74}{:>12}", "Transmission", "Allocator")?;
    print_lines(rt, layout.first_lines, sheet)?;
    print_lines(rt, &EXPENSE_LINES, sheet)?;
    print_total_factor(rt, "9", layout.expense_name, factors.expense.total)?;
    print_lines(rt, &RETURN_LINES, sheet)?;
    print_total_factor(
        rt,
        "14",
        "Annual Allocation Factor for Return",
        factors.returns.total,
    )?;
    println!(rt)?;
    println!(rt;
        "Lines 9 and 14 are rounded once from the exact sums of their sections. They are not"
    )?;
    println!(rt;
        "added up from the rounded lines above them, so they can differ from that sum by 0.01%."
    )
}

/// What a column shows of a project.
fn cell_value(cell: Cell, row: &Row, factors: &Factors) -> Value {
    let Row {
        project,
        columns,
        ..
    } = row;
    match cell {
        Cell::GrossPlant => Value::Amount(project.gross_plant.into()),
        Cell::AccumulatedDepreciation => Value::Amount(project.accumulated_depreciation.into()),
        Cell::NetPlant => {
            let gross_plant = i128::from(project.gross_plant);
            Value::Amount(gross_plant - i128::from(project.accumulated_depreciation))
        }
        Cell::OmFactor => Value::Factor(factors.transmission_om.unwrap_or(0)),
        Cell::ExpenseFactor => Value::Factor(factors.expense.total),
        Cell::ReturnFactor => Value::Factor(factors.returns.total),
        Cell::OmExpense => Value::Amount(columns.transmission_om_expense.into()),
        Cell::OtherExpense => Value::Amount(columns.other_expense.into()),
        Cell::Summed(summed) => Value::Amount(summed.of(columns).into()),
    }
}

/// The sum of a column, exact for any number of rows.
#[tactic(auto, using(crate::proofs::Sums::sum_fits, crate::proofs::Sums::sum_grows, crate::proofs::Sums::row_more))]
fn column_sum(summed: Summed, rows: &[Row]) -> i128
    ensures is_the_exact_sum { result ≡ sum_of_column summed rows.now }
{
    let mut sum = 0;
    for row in rows {
        sum += i128::from(summed.of(&row.columns));
    }
    sum
}

/// Columns of page 2 that stand side by side, with a row for each project.
#[derive(Clone, Copy)]
struct Band<'a> {
    /// The number of the first column.
    first_number: usize,
    columns: &'a [Column],
    rows: &'a [Row],
    factors: &'a Factors,
}

impl Band<'_> {
    fn print_heading(&self, rt: &impl Print) -> io::Result<()> {
        let after_last = self.first_number.saturating_add(self.columns.len());
        print!(rt; "{:>14}", "(2)")?;
        for number in self.first_number..after_last {
            print!(rt; "{:>16}", ColumnNumber(number))?;
        }
        println!(rt)?;
        let starts = ["          MTEP", "       Project", "Line    Number"];
        // By part: each column has its three lines beside its cell.
        for (part, start) in starts.iter().enumerate() {
            print!(rt; "{start}")?;
            for column in self.columns {
                print!(rt; "{:>16}", column.heading[part])?;
            }
            println!(rt)?;
        }
        Ok(())
    }

    fn print_row(&self, rt: &impl Print, row: &Row) -> io::Result<()> {
        print!(rt; "{:>10}", row.number)?;
        for column in self.columns {
            print!(rt; "{:>16}", cell_value(column.cell, row, self.factors))?;
        }
        println!(rt)
    }

    /// The sums of the columns; columns of plant and factors have none.
    fn print_sums(&self, rt: &impl Print) -> io::Result<()> {
        print!(rt; "{:>14}", "Sum")?;
        for column in self.columns {
            match column.cell {
                Cell::Summed(summed) => {
                    print!(rt; "{:>16}", Thousands(column_sum(summed, self.rows)))?;
                }
                _ => print!(rt; "{:>16}", "")?,
            }
        }
        println!(rt)
    }

    fn print(&self, rt: &impl Print) -> io::Result<()> {
        println!(rt)?;
        self.print_heading(rt)?;
        for (place, row) in self.rows.iter().enumerate() {
            print!(rt; "1{:<3}", SubRow(place))?;
            self.print_row(rt, row)?;
        }
        self.print_sums(rt)
    }
}

/// Page 2 with a row for each project.
fn print_page_two<T: Printed>(
    rt: &impl Print,
    sheet: &WorkedSheet<T>,
    rows: &[Row],
) -> io::Result<()> {
    let layout = T::layout();
    let factors = sheet.factors();
    let expense_band = Band {
        first_number: 3,
        columns: layout.expense_columns,
        rows,
        factors: &factors,
    };
    let return_band = Band {
        first_number: expense_band.columns.len().saturating_add(3),
        columns: layout.return_columns,
        ..expense_band
    };
    println!(rt;
        "Attachment {}, page 2 of 2: {}",
        layout.attachment, layout.title
    )?;
    expense_band.print(rt)?;
    return_band.print(rt)?;
    println!(rt)?;
    let total = Thousands(column_sum(Summed::Requirement, rows));
    println!(rt; "{:<4}  {:<54}{total:>18}", "2", layout.total_name)?;
    println!(rt;
        "{:<4}  {:<54}{total:>18}",
        "3", "Rev. Req. Adj. for Attachment O"
    )
}

/// Both pages of a sheet with its projects.
pub fn print_pages<T: Printed>(
    rt: &impl Print,
    sheet: &WorkedSheet<T>,
    rows: &[Row],
) -> io::Result<()> {
    print_page_one(rt, sheet)?;
    println!(rt)?;
    print_page_two(rt, sheet, rows)
}
