ghost use Rattle.std.specs.Prelude.{◌≡◌, ◌+◌};
ghost use Rattle.sheets.specs.Figures.{blank};
ghost use Rattle.filing.specs.Filed.{entering, from, pricing};
ghost use Rattle.filing.specs.Lines.{unread};

use crate::pages::Pages;
use crate::reader::FilingReader;
use crate::refusal::{LineRefusal, Refusal};
use crate::sheet_lines::enter_figure;
use sheets::{OpenSheet, Template};

/// Prices the projects of the other P lines.
// `unread reader`, also in `read_lines`: an argument of the one result; a model would give the lines and the number
// back as a pair.
fn price_rest<T: Template>(
    mut reader: FilingReader,
    mut pages: Pages<T>,
) -> Result<Pages<T>, LineRefusal>
    ensures { result ≡ from T.rules (reader.entry.lines + 1) (pricing pages) (unread reader.entry) }
{
    'lines: while let Some(line) = reader.next_record()? {
        line.answer(pages.take(line))?;
    }
    Ok(pages)
}

/// Reads the lines after the T line: the figures of the F lines are entered, and the first P line finishes page 1.
pub(crate) fn read_lines<T: Template>(mut reader: FilingReader) -> Result<Pages<T>, LineRefusal>
    ensures { result ≡ from T.rules (reader.entry.lines + 1) (entering blank) (unread reader.entry) }
{
    let mut sheet = OpenSheet::new();
    'lines: while let Some(line) = reader.next_record()? {
        match line.letter {
            'F' => {
                line.answer(enter_figure(&mut sheet, line.bytes))?;
            }
            'P' => {
                let pages = line.answer(Pages::open(sheet, line.bytes))?;
                return price_rest(reader, pages);
            }
            _ => return Err(line.refused(Refusal::LetterOutOfPlace)),
        }
    }
    Err(Refusal::NoProject.at_line(reader.line()))
}
