//! The program `worksheet`: filings of both templates, refusals of a figure, of lines, at the end and of the file, and an
//! input that breaks off.

use crate::inputs::{BreaksOff, CC};
use crate::outputs::show_end;
use anyhow::Result;
use printed_numbers::{Percent, SubRow, Thousands};
use printed_pages::show_filing;
use std::io::Read;

/// Attachment MM, with the figures of page 1.
const MM: &str = concat!(
    "T MM                                                    \n",
    "F  1  1000000000                                        \n",
    "F 1a   400000000                                        \n",
    "F  3    30000000                                        \n",
    "F 3a    12000000                                        \n",
    "F 3b     1000000                                        \n",
    "F 3c     1000000                                        \n",
    "F  5     3000000                                        \n",
    "F  7    12000000                                        \n",
    "F 10   -60000000                                        \n",
    "F 12    42000000                                        \n",
);

const PROJECT: &str = "P          7     9000000     1000000      100000        \n";

/// What `worksheet` prints for an input, and why it ends where it ends early.
fn show_input(rt: &(impl Print + AllocGlobal), name: &str, input: impl Read + Drop) -> Result<()> {
    println!(rt; "worksheet: {name}")?;
    show_end(rt, show_filing(rt, input))?;
    Ok(println!(rt)?)
}

/// What `worksheet` prints for a filing of these parts.
fn show(rt: &(impl Print + AllocGlobal), name: &str, parts: &[&str]) -> Result<()> {
    let file = parts.concat(rt.alloc())?;
    show_input(rt, name, file.as_bytes())
}

fn show_pages(rt: &(impl Print + AllocGlobal)) -> Result<()> {
    show(rt, "two projects in Attachment MM", &[MM, PROJECT, PROJECT])?;
    show(rt, "one project in Attachment CC", &[CC, PROJECT])
}

fn show_refusals(rt: &(impl Print + AllocGlobal)) -> Result<()> {
    let amount_too_large = "F  1 10000000001                                        \n";
    show(rt, "an amount too large", &[MM, amount_too_large, PROJECT])?;
    show(rt, "a byte too few", &[MM, "F  1        1000\n", PROJECT])?;
    let line = "F  1        1000                                        \r\n";
    show(
        rt,
        "a carriage return before a newline",
        &[MM, line, PROJECT],
    )?;
    show(rt, "no project", &[CC])?;
    show(rt, "no byte", &[])?;
    let rest = " ".repeat(rt.alloc(), 65_537 - 9 * 57)?;
    show(rt, "65,537 bytes", &[CC, PROJECT, rest.as_str()])?;
    show_input(rt, "a filing that breaks off", BreaksOff(CC.as_bytes()))
}

fn show_text(rt: &impl Print) -> Result<()> {
    println!(rt; "worksheet: amounts, factors and sub-rows")?;
    for amount in [0, 999, -1_000, 1_234_567, i128::MIN] {
        println!(rt; "{:>52}", Thousands(amount))?;
    }
    for factor in [0, -5, 100, i64::MIN] {
        println!(rt; "{:>52}", Percent(factor))?;
    }
    for place in [0, 25, 26, 51, 52, 701] {
        println!(rt; "{:>52}", SubRow(place))?;
    }
    Ok(println!(rt)?)
}

pub fn run(rt: &(impl Print + AllocGlobal)) -> Result<()> {
    show_pages(rt)?;
    show_refusals(rt)?;
    show_text(rt)
}
