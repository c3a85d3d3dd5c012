//! The program `daybook`: every refusal in words, lines of every length and kind, an input that breaks off, and
//! an output that runs full.

use crate::inputs::BreaksOff;
use crate::outputs::{RunsFull, show_end};
use anyhow::Result;
use desk::answer_input;
use std::alloc::Global;
use std::io;
use std::io::{Read, Write};

/// The most bytes that a line of a daybook may have without its newline.
const LONGEST: usize = 65_536;

/// How many bytes of a long line of answers are shown at each end.
const ENDS: usize = 60;

/// Every refusal of a book but that for want of room, which `many_projects` has.
const REFUSALS: &[u8] = b"open,2026,table,1
file,0,1
post,1
file,7,100000001
pay
file,7,100
post,0
post,1000000000
post,1
file,7,100
bill,0,1,1
bill,1,1,1000
bill,1,1,1000
bill,2,1,1000
resettle,1,2,1000
bill,1,2,10000000000
state,8,1
state,7,100000001
close,flat,1
state,7,100000000
close,flat,1
pay
close,flat,100001
close,flat,100000
open,65535,entries,1
file,7,1
post,1
state,7,1
pay
close,flat,1
";

/// Lines that are unread or passed over, and entries while no book is open.
const UNREAD: &[u8] = b"look, 7
pay
\xEF\xBB\xBFpay
pay\xFF
#\xFF
\"# a remark, with a comma and \xFF\"
pay\r
pay\r\r
pay,,\r
,,,
bill,1,13,-1
PAY";

/// A line of so many bytes: a beginning, one byte over and over, and an end.
fn push_line(
    input: &mut Vec<u8>,
    length: usize,
    start: &[u8],
    fill: u8,
    end: &[u8],
) -> io::Result<()> {
    input.extend_from_slice(start)?;
    for _ in start.len() + end.len()..length {
        input.push(fill)?;
    }
    input.extend_from_slice(end)?;
    Ok(input.push(b'\n')?)
}

/// Lines of as many bytes as a line may have, and of one and of four bytes more.
fn long_lines(alloc: Global) -> io::Result<Vec<u8>> {
    let mut input = Vec::new(alloc);
    for length in [LONGEST, LONGEST + 1, LONGEST + 4] {
        push_line(&mut input, length, b"", b'a', b"")?;
        push_line(&mut input, length, b"pay", b',', b"")?;
        push_line(&mut input, length, b"#", b'a', b"")?;
        push_line(&mut input, length, b"", b'a', b"pay")?;
        push_line(&mut input, length, b"", b'a', b"\r")?;
        push_line(&mut input, length, b"", b'a', b"\ra")?;
    }
    input.extend_from_slice(b"pay")?;
    Ok(input)
}

/// A first line of so many bytes, the mark before it counted.
fn marked(alloc: Global, length: usize) -> io::Result<Vec<u8>> {
    let mut input = Vec::new(alloc);
    push_line(&mut input, length, b"\xEF\xBB\xBFpay", b',', b"")?;
    Ok(input)
}

/// More lines than 16 bits can count, and then an entry.
fn many_lines(alloc: Global) -> io::Result<Vec<u8>> {
    let mut input = Vec::new(alloc);
    for _ in 0..65_540 {
        input.extend_from_slice(b"#\n")?;
    }
    input.extend_from_slice(b"pay\n")?;
    Ok(input)
}

/// As many projects as a book has rows, and one more.
fn many_projects(alloc: Global) -> io::Result<Vec<u8>> {
    let mut input = Vec::new(alloc);
    input.write_all(b"open,2026,entries,0\n")?;
    for project in 1..=65 {
        writeln!(input, "file,{project},1")?;
    }
    Ok(input)
}

/// A line of answers: of a long one both ends and the length, its newline counted.
fn show_line(rt: &impl Print, line: &[u8]) -> io::Result<()> {
    match (line.first_chunk::<ENDS>(), line.last_chunk::<ENDS>()) {
        (Some(start), Some(end)) if line.len() > 4 * ENDS => {
            rt.write_all(start)?;
            print!(rt; "[{} bytes in all]", line.len())?;
            rt.write_all(end)
        }
        _ => rt.write_all(line),
    }
}

fn show_lines(rt: &impl Print, text: &[u8]) -> io::Result<()> {
    for line in text.split_inclusive(|byte| *byte == b'\n') {
        show_line(rt, line)?;
    }
    Ok(())
}

/// What the daybook of an input is answered, in words too.
fn show(rt: &(impl Print + AllocGlobal), name: &str, input: impl Read + Drop) -> Result<()> {
    println!(rt; "daybook, {name}:")?;
    show_answers(rt, input, true)
}

fn show_answers(
    rt: &(impl Print + AllocGlobal),
    input: impl Read + Drop,
    explain: bool,
) -> Result<()> {
    let mut answers = Vec::new(rt.alloc());
    let answered = answer_input(rt.alloc(), input, &mut answers, explain);
    show_lines(rt, &answers)?;
    Ok(show_end(rt, answered)?)
}

/// What is written of the answers where the output has room for ten bytes.
fn show_on_a_full_output(rt: &(impl Print + AllocGlobal)) -> Result<()> {
    println!(rt; "daybook, an output that runs full:")?;
    let mut output = RunsFull {
        taken: Vec::new(rt.alloc()),
        room: 10,
    };
    let answered = answer_input(rt.alloc(), &b"pay\npay\n"[..], &mut output, true);
    rt.write_all(&output.taken)?;
    println!(rt)?;
    Ok(show_end(rt, answered)?)
}

pub fn run(rt: &(impl Print + AllocGlobal)) -> Result<()> {
    let alloc = rt.alloc();
    show(rt, "refusals", REFUSALS)?;
    show(rt, "many projects", many_projects(alloc)?.as_slice())?;
    show(rt, "unread lines", UNREAD)?;
    show(
        rt,
        "a mark before the first line",
        &b"\xEF\xBB\xBFpay\r\n"[..],
    )?;
    show(rt, "long lines", long_lines(alloc)?.as_slice())?;
    show(
        rt,
        "a mark before a line of the most bytes",
        marked(alloc, LONGEST)?.as_slice(),
    )?;
    show(
        rt,
        "a mark before a line of more bytes",
        marked(alloc, LONGEST + 1)?.as_slice(),
    )?;
    show(rt, "many lines", many_lines(alloc)?.as_slice())?;
    show(
        rt,
        "an input that cannot be read",
        BreaksOff(b"pay\npay\npa"),
    )?;
    show_on_a_full_output(rt)?;
    println!(rt; "daybook, without words:")?;
    show_answers(rt, &b"pay\nopen,2026,table,1\npay\npay,1\n"[..], false)
}
