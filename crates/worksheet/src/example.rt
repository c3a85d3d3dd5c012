use crate::task::{enter_all, finish, price_all};
use printed_pages::{Printed, print_pages};
use sheets::{AttachmentCc, AttachmentMm, OpenSheet, Project};
use std::io;

fn project(gross_plant: i64, accumulated_depreciation: i64, depreciation_expense: i64) -> Project {
    Project {
        gross_plant,
        accumulated_depreciation,
        depreciation_expense,
    }
}

/// Enters figures, finishes page 1, prices projects and prints both pages.
fn work<T: Printed>(
    rt: &(impl Print + AllocGlobal),
    mut sheet: OpenSheet<T>,
    figures: &[(&str, i64)],
    projects: &[(i64, Project)],
) -> io::Result<()> {
    enter_all(rt, &mut sheet, figures)?;
    let Ok(sheet) = finish(rt, sheet)? else {
        return Ok(());
    };
    let rows = price_all(rt, &sheet, projects)?;
    println!(rt)?;
    print_pages(rt, &sheet, &rows)
}

/// Attachment CC's printed example: finished too early, one figure refused, and then worked.
fn cc_task(rt: &(impl Print + AllocGlobal)) -> io::Result<()> {
    println!(rt; "Attachment CC: the example that the tariff prints")?;
    let mut sheet = OpenSheet::<AttachmentCc>::new();
    let first_figures = [
        ("1", 1_865_000_000),
        ("2", 1_305_500_000),
        ("3", 52_989_310),
        ("5", 3_247_214),
        ("7", 12_975_857),
        ("10", 47_594_197),
    ];
    enter_all(rt, &mut sheet, &first_figures)?;
    let Err(sheet) = finish(rt, sheet)? else {
        return Ok(());
    };
    let last_figures = [("12", 10_000_000_001), ("12", 100_209_722)];
    let projects = [
        (1, project(20_000_000, 500_000, 800_000)),
        (2, project(10_000_000, 2_000_000, 200_000)),
        (3, project(15_000_000, 0, 0)),
    ];
    work(rt, sheet, &last_figures, &projects)
}

/// An Attachment MM sheet with one project.
fn mm_task(rt: &(impl Print + AllocGlobal)) -> io::Result<()> {
    println!(rt; "Attachment MM: a sheet with one Multi-Value Project")?;
    let figures = [
        ("1", 1_000_000_000),
        ("1a", 400_000_000),
        ("3", 30_000_000),
        ("3a", 12_000_000),
        ("3b", 1_000_000),
        ("3c", 1_000_000),
        ("5", 3_000_000),
        ("7", 12_000_000),
        ("10", 18_000_000),
        ("12", 42_000_000),
    ];
    let projects = [(7, project(20_000_000, 2_000_000, 400_000))];
    work(rt, OpenSheet::<AttachmentMm>::new(), &figures, &projects)
}

/// Works the built-in task and prints each action as it is done.
pub fn show_example(rt: &(impl Print + AllocGlobal)) -> io::Result<()> {
    cc_task(rt)?;
    println!(rt)?;
    mm_task(rt)
}
