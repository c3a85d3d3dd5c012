ghost use Rattle.std.specs.Prelude.{◌≡◌, ◌+◌, ◌*◌, ◌≤◌, length};

use crate::refusal::{LineRefusal, Refusal};

/// The most bytes that a filing may have.
pub const LONGEST: usize = 65_536;

/// A line of a filing: its letter, its 56 bytes as a part of the file, at which byte of the file they
/// begin, counted from 0, and the line's number from 1.
#[derive(Clone, Copy)]
pub struct Record<'a> {
    // A `char`, matched by the letters of the file format: any other byte is refused where it stands.
    pub letter: char,
    pub bytes: &'a [u8; 56],
    pub offset: usize,
    pub line: u16,
}

impl Record<'_> {
    ghost use Rattle.filing.specs.Filed.{at};
    ghost use Rattle.filing.specs.Lines.{at_line};

    /// A refusal of this line.
    pub(crate) fn refused(&self, refusal: Refusal) -> LineRefusal
        ensures { result ≡ at_line self.now.line refusal }
    {
        refusal.at_line(self.line)
    }

    /// What this line gives, where a refusal is one of this line.
    pub(crate) fn answer<X>(&self, given: Result<X, Refusal>) -> Result<X, LineRefusal>
        ensures { result ≡ at self.now.line given }
    {
        let line = self.line;
        given.map_err(|refusal| refusal.at_line(line))
    }
}

/// A reader over the lines of a filing: the file, and how many of its lines were read.
#[derive(Drop)]
pub struct FilingReader<'a> {
    file: &'a [u8],
    lines: u16,
    ghost file_is_short_enough: { length file.now ≤ 65536 },
    ghost lines_are_in_the_file: { 57 * lines ≤ length file.now },
}

impl<'a> FilingReader<'a> {
    ghost use Rattle.std.specs.Prelude.{true, false, take, MatchOption};
    ghost use Rattle.filing.specs.Lines.{AnswersTheNextLine, OpensTheFile, PartOf, next_line, rest_of, whole};

    /// A reader before the first line of a filing. A file of more than 65,536 bytes is refused by 29, at line 1.
    pub fn new(file: &'a [u8]) -> Result<FilingReader<'a>, LineRefusal>
        ensures stands_before_the_first_line_or_refuses_a_file_too_long { OpensTheFile file.now result }
    {
        if file.len() > LONGEST {
            return Err(Refusal::FileTooLong.at_line(1));
        }
        Ok(FilingReader { file, lines: 0 })
    }

    /// The number of the next line, from 1.
    pub(crate) fn line(&self) -> u16
        ensures { result ≡ self.now.lines + 1 }
    {
        self.lines + 1
    }

    /// Where in the file the next line begins.
    fn offset(&self) -> usize
        ensures { result ≡ 57 * self.now.lines }
    {
        57 * usize::from(self.lines)
    }

    /// The bytes that no line was read of.
    fn rest(&self) -> &'a [u8]
        ensures { result.now ≡ rest_of self.now }
    {
        &self.file[self.offset()..]
    }

    /// The columns of the next line.
    fn columns(&self) -> Option<&'a [u8; 56]>
        ensures { MatchOption result (whole (next_line self.now) ≡ false) (λ columns. (whole (next_line self.now) ≡ true) × (columns.now ≡ take 56 (next_line self.now))) }
    {
        let line = self.rest().first_chunk::<57>()?;
        // Never none: a line of 57 bytes has a first 56.
        let columns = line.first_chunk()?;
        if line[56] != b'\n' || columns.contains(&b'\n') {
            return None;
        }
        Some(columns)
    }

    /// The record of the next line, whose columns are these.
    #[tactic(auto, using(crate::proofs::Lines::columns_of_next))]
    fn record(&self, columns: &'a [u8; 56]) -> Record<'a>
        requires { columns.now ≡ take 56 (next_line self.now) }
        ensures { PartOf self.now result }
    {
        Record {
            letter: char::from(columns[0]),
            bytes: columns,
            offset: self.offset(),
            line: self.line(),
        }
    }

    /// The next line, or nothing at the end of the file. What is no line is refused by 29, at its number; the reader
    /// then stays where it is.
    // No iterator: its item would be a `Result`, which each loop had to take apart before it looks at the letter.
    pub fn next_record(&mut self) -> Result<Option<Record<'a>>, LineRefusal>
        ensures answers_the_next_line_with_its_place_and_stays_at_a_refusal { AnswersTheNextLine self.old result self.new }
    {
        if self.rest().is_empty() {
            return Ok(None);
        }
        let line = self.line();
        let bytes = self.columns().ok_or(Refusal::NotALine.at_line(line))?;
        let record = self.record(bytes);
        self.lines = line;
        Ok(Some(record))
    }
}
