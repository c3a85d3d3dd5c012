ghost use Rattle.std.specs.Prelude.{◌≡◌};
ghost use Rattle.std.specs.Str.Lines.{strip_carriage_return};
ghost use Rattle.entries.specs.Lines.{ReadsEntryTexts, line_in, passed_over, text_in, without_commas as without_commas_of};

use crate::entry::Entry;
use crate::reading::read_entry;

/// What a line of a daybook is.
#[derive(Drop)]
pub enum Line<'a> {
    /// An empty line, or a remark: one that begins with `#` or with `"#`.
    Passed,
    Entry(Entry<'a>),
    /// Any other line.
    Unread,
}

/// A line without the carriage return at its end, if there is one.
fn without_cr(line: &str) -> &str
    ensures { result.now ≡ strip_carriage_return line.now }
{
    line.strip_suffix('\r').unwrap_or(line)
}

/// A line without the commas at its end: a spreadsheet fills its rows up with them.
fn without_commas(line: &str) -> &str
    ensures { result.now ≡ without_commas_of line.now }
{
    let mut rest = line;
    while let Some(front) = rest.strip_suffix(',') {
        rest = front;
    }
    rest
}

/// Whether a line, given in bytes, is passed over: an empty one, or a remark.
pub fn is_passed_over(line: &[u8]) -> bool
    ensures true_for_an_empty_line_and_a_remark { result ≡ passed_over line.now }
{
    matches!(line, [] | [b'#', ..] | [b'"', b'#', ..])
}

/// What a line is whose end has nothing to drop.
fn read_text(text: &str) -> Line<'_>
    ensures { result ≡ text_in text.now }
{
    if is_passed_over(text.as_bytes()) {
        return Line::Passed;
    }
    match read_entry(text) {
        Some(entry) => Line::Entry(entry),
        None => Line::Unread,
    }
}

/// Reads a line, given without its newline. A carriage return at its end is dropped, and then the
/// commas at its end.
#[tactic(auto, using(crate::proofs::Laws::reads_entry_texts), unfolding(crate::specs::Lines::line_in))]
pub fn read_line(line: &str) -> Line<'_>
    ensures reading { result ≡ line_in line.now }
    ensures reads_entry_texts { ReadsEntryTexts line.now result }
{
    read_text(without_commas(without_cr(line)))
}
