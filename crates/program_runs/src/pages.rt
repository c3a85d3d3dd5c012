//! The program `pages`: at the length where a file becomes too long, and on inputs that come in pieces or break off, and on
//! an output that runs full.

use crate::inputs::{BreaksOff, CC, InPieces};
use crate::outputs::{RunsFull, show_end};
use anyhow::Result;
use std::alloc::Global;
use std::io;
use std::io::Read;
use streamed_pages::show_pages;

/// A project of Attachment CC.
const PROJECT: &str = "P          1    20000000      500000      800000        \n";

/// So many bytes of a T line and F lines, the last of them cut short.
fn figures(alloc: Global, length: usize) -> io::Result<Vec<u8>> {
    let (t_line, figure) = (&CC.as_bytes()[..57], &CC.as_bytes()[57..114]);
    let mut file = Vec::new(alloc);
    file.extend_from_slice(t_line)?;
    for _ in 0..1_150 {
        file.extend_from_slice(figure)?;
    }
    file.truncate(length);
    Ok(file)
}

/// What `pages` prints for an input, and why it ends where it ends early.
fn show(rt: &(impl Print + AllocGlobal), heading: &str, input: impl Read + Drop) -> Result<()> {
    println!(rt; "pages: {heading}")?;
    show_end(rt, show_pages(rt, input, &mut io::writer(rt)))?;
    Ok(println!(rt)?)
}

/// What `pages` prints for a filing where the output has room for forty bytes.
fn show_on_a_full_output(rt: &(impl Print + AllocGlobal), filing: &[u8]) -> Result<()> {
    println!(rt; "pages: an output that runs full")?;
    let mut output = RunsFull {
        taken: Vec::new(rt.alloc()),
        room: 40,
    };
    let ended = show_pages(rt, filing, &mut output);
    rt.write_all(&output.taken)?;
    println!(rt)?;
    show_end(rt, ended)?;
    Ok(println!(rt)?)
}

pub fn run(rt: &(impl Print + AllocGlobal)) -> Result<()> {
    let filing = [CC, PROJECT].concat(rt.alloc())?;
    let filing = filing.as_bytes();
    let longest = figures(rt.alloc(), 65_536)?;
    let too_long = figures(rt.alloc(), 65_537)?;
    show(rt, "no bytes", &[][..])?;
    show(rt, "a filing", filing)?;
    show(rt, "a filing in pieces", InPieces(filing))?;
    show(rt, "65,536 bytes", &longest[..])?;
    show(rt, "65,536 bytes in pieces", InPieces(&longest))?;
    show(rt, "65,537 bytes", &too_long[..])?;
    show(rt, "65,537 bytes in pieces", InPieces(&too_long))?;
    show(rt, "a filing that breaks off", BreaksOff(filing))?;
    show_on_a_full_output(rt, filing)
}
