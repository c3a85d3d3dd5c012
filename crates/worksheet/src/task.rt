use printed_numbers::{Percent, Thousands};
use printed_pages::Row;
use sheets::{OpenSheet, Project, Template, WorkedSheet};
use std::alloc::{AllocError, Global};
use std::io;

/// Enters figures by their printed labels and says what became of each.
pub fn enter_all<T: Template>(
    rt: &impl Print,
    sheet: &mut OpenSheet<T>,
    figures: &[(&str, i64)],
) -> io::Result<()> {
    for &(label, amount) in figures {
        print!(rt; "  line {label:<4}{:>20}  ", Thousands(amount.into()))?;
        match sheet.enter_labelled(label.as_bytes(), amount) {
            Ok(()) => println!(rt; "entered")?,
            Err(refusal) => println!(rt; "refused ({}): {refusal}", refusal.number())?,
        }
    }
    Ok(())
}

/// The labels of the lines that have no amount yet.
fn missing<T: Template>(
    heap: Global,
    sheet: &OpenSheet<T>,
) -> Result<Vec<&'static str>, AllocError> {
    let mut missing = Vec::new(heap);
    // A loop: in a closure it is not proved that the sheet may be asked.
    for &line in T::lines() {
        if sheet.figure(T::figure(line)).is_none() {
            missing.push(str::from_utf8(T::label(line)).unwrap_or(""))?;
        }
    }
    Ok(missing)
}

/// Finishes page 1 and says what became of it; a refused sheet comes back open.
pub fn finish<T: Template>(
    rt: &(impl Print + AllocGlobal),
    sheet: OpenSheet<T>,
) -> io::Result<Result<WorkedSheet<T>, OpenSheet<T>>> {
    print!(rt; "  finish              ")?;
    match sheet.finish() {
        Ok(worked) => {
            print_factors(rt, &worked)?;
            Ok(Ok(worked))
        }
        Err((refusal, sheet)) => {
            print!(rt; "refused ({}): {refusal}", refusal.number())?;
            let missing = missing(rt.alloc(), &sheet)?;
            if !missing.is_empty() {
                print!(rt; ": {}", missing.join(rt.alloc(), ", ")?)?;
            }
            println!(rt)?;
            Ok(Err(sheet))
        }
    }
}

fn print_factors<T: Template>(rt: &impl Print, sheet: &WorkedSheet<T>) -> io::Result<()> {
    let factors = sheet.factors();
    print!(rt; "page 1 worked: ")?;
    if let Some(factor) = factors.transmission_om {
        print!(rt; "line 4 is {}, ", Percent(factor))?;
    }
    println!(rt;
        "line 9 is {}, line 14 is {}",
        Percent(factors.expense.total),
        Percent(factors.returns.total)
    )
}

/// Prices projects and says what became of each.
pub fn price_all<T: Template>(
    rt: &(impl Print + AllocGlobal),
    sheet: &WorkedSheet<T>,
    projects: &[(i64, Project)],
) -> io::Result<Vec<Row>> {
    let mut rows = Vec::new(rt.alloc());
    for &(number, project) in projects {
        print!(rt; "  project {number:<4}        ")?;
        match sheet.price(project) {
            Ok(columns) => {
                let requirement = columns.annual_revenue_requirement;
                println!(rt;
                    "annual revenue requirement {}",
                    Thousands(requirement.into())
                )?;
                rows.push(Row {
                    number,
                    project,
                    columns,
                })?;
            }
            Err(refusal) => println!(rt; "refused ({}): {refusal}", refusal.number())?,
        }
    }
    Ok(rows)
}
