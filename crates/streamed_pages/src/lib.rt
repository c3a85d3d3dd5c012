//! The pages of a filing: from an input of any length to their text on an output.
#![tactic(auto)]

ghost use Rattle.std.specs.Prelude.{IfSome, OnOk};
ghost use Rattle.std.specs.Io.KnownBytes.{Appends};
ghost use Rattle.filed_pages.specs.Texts.{filing_text};
ghost use Rattle.streamed_pages.specs.Outputs.{StaysWhereUnreadable};

use filed_pages::{LONGEST_TEXT, write_pages};
use filing_input::{PagesError, read_file};
use std::io::{Read, Write};

/// Reads a filing from the input and writes its priced projects and their sums to the output, or its refusal.
// The first clause is about inputs and outputs in memory, whose bytes are known; of others it says nothing.
pub fn show_pages<R: Read + Drop, W: Write>(
    rt: &impl AllocGlobal,
    input: R,
    output: &mut W,
) -> Result<(), PagesError>
    ensures writes_the_text_of_the_whole_input { OnOk result (IfSome (R.remaining input) (λ file. Appends (W.contents output.old) (W.contents output.new) (filing_text file))) }
    ensures writes_nothing_where_the_input_cannot_be_read { StaysWhereUnreadable result output.old output.new }
{
    let file = read_file(rt.alloc(), input).map_err(PagesError::Unreadable)?;
    let mut text = [b' '; LONGEST_TEXT];
    let length = write_pages(&file, &mut text);
    output
        .write_all(&text[..length])
        .map_err(PagesError::Unwritable)
}
