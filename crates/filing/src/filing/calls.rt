ghost use Rattle.std.specs.Prelude.{◌≡◌, length, OnOk};
ghost use Rattle.filing.specs.Filed.{seen};
ghost use Rattle.filing.specs.Filing.{filed, filed_under, rows_filed, sheet_filed, view};
ghost use Rattle.filing.specs.Lines.{unread};
ghost use Rattle.filing.specs.Records.{RecordsAndBytesDetermineEachOther};
ghost use Rattle.filing.specs.Rows.{rows_of};

use crate::fields::is_blank;
use crate::filing::Filing;
use crate::pages::Pages;
use crate::pages::calls::read_lines;
use crate::priced_projects::PricedProjects;
use crate::reader::{FilingReader, Record};
use crate::refusal::{LineRefusal, Refusal};
use sheets::Template;

/// Reads a filing of this template, whose first line is the T line.
// The line and the reader, also in `read_named`: the line is asked about, and only the reader goes on.
// `unread reader`, also in `read_named`: an argument of the one result; a model would give the lines and the number
// back as a pair.
fn read_sheet<T: Template>(line: Record, reader: FilingReader) -> Result<Pages<T>, LineRefusal>
    requires { (line.line ≡ 1) × (reader.lines ≡ 1) }
    ensures { result ≡ sheet_filed T.rules line.entry.bytes.now (unread reader.entry) }
{
    let columns = line.bytes;
    if !is_blank(&columns[4..]) {
        return Err(line.refused(Refusal::MalformedField));
    }
    read_lines(reader)
}

/// Reads a filing by the template's name.
fn read_named(line: Record, reader: FilingReader) -> Result<Filing, LineRefusal>
    requires { (line.line ≡ 1) × (reader.lines ≡ 1) }
    ensures { seen view result ≡ filed_under line.entry.bytes.now (unread reader.entry) }
{
    let columns = line.bytes;
    match &columns[1..4] {
        b" MM" => Ok(Filing::Mm(read_sheet(line, reader)?)),
        b" CC" => Ok(Filing::Cc(read_sheet(line, reader)?)),
        _ => Err(line.refused(Refusal::UnknownTemplate)),
    }
}

/// Reads a filing and works both its pages, or answers the first line that is refused.
pub fn read_pages(file: &[u8]) -> Result<Filing, LineRefusal>
    ensures outcome { seen view result ≡ filed file.now }
    ensures records_and_bytes_determine_each_other { OnOk result (RecordsAndBytesDetermineEachOther file.now) }
{
    let mut reader = FilingReader::new(file)?;
    let line = reader
        .next_record()?
        .ok_or(Refusal::LetterOutOfPlace.at_line(1))?;
    match line.letter {
        'T' => read_named(line, reader),
        _ => Err(line.refused(Refusal::LetterOutOfPlace)),
    }
}

impl Filing {
    /// The projects of page 2.
    pub fn projects(&self) -> PricedProjects
        ensures { rows_of result ≡ (view self.now).1.rows }
    {
        match self {
            Filing::Mm(pages) => *pages.projects(),
            Filing::Cc(pages) => *pages.projects(),
        }
    }
}

/// Reads a filing and prices its projects, or answers the first line that is refused.
pub fn read_filing(file: &[u8]) -> Result<PricedProjects, LineRefusal>
    ensures { seen rows_of result ≡ seen rows_filed (filed file.now) }
{
    Ok(read_pages(file)?.projects())
}
