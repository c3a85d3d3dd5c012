use crate::layout::Printed;
use crate::pages::{Row, print_pages};
use filing::{Filing, LineRefusal, Pages, read_pages};
use filing_input::{PagesError, read_file};
use std::io;
use std::io::Read;

fn print_filed<T: Printed>(rt: &(impl Print + AllocGlobal), pages: &Pages<T>) -> io::Result<()> {
    let rows: Vec<Row> = pages
        .projects()
        .as_slice()
        .iter()
        .map(Row::from)
        .collect(rt.alloc())?;
    print_pages(rt, pages.sheet(), &rows)
}

/// Prints why a filing is refused, and the line as it stands there.
fn show_refusal(rt: &impl Print, file: &[u8], refused: LineRefusal) -> io::Result<()> {
    let LineRefusal { line, refusal } = refused;
    println!(rt;
        "Line {line} of the filing is refused ({}): {refusal}.",
        refusal.number()
    )?;
    match file
        .split(|byte| *byte == b'\n')
        .nth(usize::from(line).saturating_sub(1))
    {
        Some(text) if !text.is_empty() => show_line(rt, text),
        _ => Ok(()),
    }
}

fn show_line(rt: &impl Print, text: &[u8]) -> io::Result<()> {
    let end = if text.ends_with(b"\r") {
        ", the last a carriage return"
    } else {
        ""
    };
    println!(rt; "The line has {} bytes{end}:", text.len())?;
    rt.write_all(text.trim_ascii_end())?;
    println!(rt)
}

/// Prints both pages of the filing that is read, or why it is refused.
pub fn show_filing(
    rt: &(impl Print + AllocGlobal),
    input: impl Read + Drop,
) -> Result<(), PagesError> {
    let file = read_file(rt.alloc(), input).map_err(PagesError::Unreadable)?;
    match read_pages(&file) {
        // An arm for each template: each is a type of pages of its own, and a pattern binds one type.
        Ok(Filing::Mm(pages)) => print_filed(rt, &pages),
        Ok(Filing::Cc(pages)) => print_filed(rt, &pages),
        Err(refused) => show_refusal(rt, &file, refused),
    }
    .map_err(PagesError::Unwritable)
}
