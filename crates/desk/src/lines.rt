ghost use Rattle.std.specs.Prelude.{◌≡◌};
ghost use Rattle.desk.specs.Lines.{ReadAs, beyond_longest, kept_of, shown, without_last, without_mark};

use entries::{Line, is_passed_over, read_line};
use std::alloc::Global;
use std::io::{BufRead, Take};
use std::{io, mem};

/// The most bytes that a line may have without its newline.
const LONGEST: usize = 65_536;

/// The mark that some programs write before a text in UTF-8.
const BYTE_ORDER_MARK: [u8; 3] = *b"\xEF\xBB\xBF";

/// The lines of an input, read one after the other into the same memory.
#[derive(Drop)]
pub struct Lines<R> {
    input: Take<R>,
    line: Vec<u8>,
    is_first: bool,
}

impl<R: BufRead> Lines<R> {
    /// The lines of an input, none of them read yet.
    pub fn new(alloc: Global, input: R) -> io::Result<Lines<R>>
    where
        R: Drop,
    {
        let line = Vec::with_capacity(alloc, LONGEST + 1)?;
        Ok(Lines {
            input: input.take(0),
            line,
            is_first: true,
        })
    }

    /// The next line, or nothing at the end of the input.
    pub fn next_line(&mut self) -> io::Result<Option<RawLine<'_>>> {
        self.line.clear();
        self.input.set_limit(LONGEST as u64 + 1);
        if self.input.read_until(b'\n', &mut self.line)? == 0 {
            return Ok(None);
        }
        let line = RawLine::cut(&self.line);
        if line.is_too_long {
            self.input.set_limit(u64::MAX);
            self.input.skip_until(b'\n')?;
        }
        let is_first = mem::replace(&mut self.is_first, false);
        Ok(Some(line.without_mark(is_first)))
    }
}

/// A line as it stands in the input, without its newline: of one that is too long the first bytes.
#[derive(Clone, Copy)]
pub struct RawLine<'a> {
    bytes: &'a [u8],
    is_too_long: bool,
}

/// Bytes without this one at their end, if it stands there.
fn without_last(bytes: &[u8], last: u8) -> &[u8]
    ensures { result.now ≡ without_last last bytes.now }
{
    bytes.strip_suffix(&[last]).unwrap_or(bytes)
}

impl<'a> RawLine<'a> {
    /// The line that was read up to its newline, or up to one byte more than the longest.
    fn cut(read: &'a [u8]) -> RawLine<'a>
        ensures first_bytes_before_the_newline_are_kept { result.bytes.now ≡ kept_of read.now }
        ensures too_long_beyond_the_longest { result.is_too_long ≡ beyond_longest read.now }
    {
        let line = without_last(read, b'\n');
        RawLine {
            bytes: &line[..LONGEST.min(line.len())],
            is_too_long: line.len() > LONGEST,
        }
    }

    /// The line without the mark, where it is the first and begins with it.
    fn without_mark(self, is_first: bool) -> RawLine<'a>
        ensures mark_is_dropped_where_the_line_is_the_first { result.bytes.now ≡ without_mark is_first self.entry.bytes.now }
        ensures long_line_stays_too_long { result.is_too_long ≡ self.entry.is_too_long }
    {
        match self.bytes.strip_prefix(&BYTE_ORDER_MARK) {
            Some(bytes) if is_first => RawLine { bytes, ..self },
            _ => self,
        }
    }

    /// The line without the carriage return at its end, if there is one: of a line that is too long
    /// the first bytes as they stand.
    pub fn shown(self) -> &'a [u8]
        ensures first_bytes_without_the_carriage_return_at_the_end { result.now ≡ shown self.entry }
    {
        if self.is_too_long {
            return self.bytes;
        }
        without_last(self.bytes, b'\r')
    }

    /// What the line is. One that is too long, or no UTF-8 text, is passed over or unread.
    #[tactic(auto, using(crate::proofs::Remarks::remark_is_passed))]
    pub fn read(self) -> Line<'a>
        ensures text_within_the_longest_is_read_and_any_other_line_is_a_remark_or_unread { ReadAs self.entry result }
    {
        match str::from_utf8(self.bytes) {
            Ok(text) if !self.is_too_long => read_line(text),
            _ if is_passed_over(self.bytes) => Line::Passed,
            _ => Line::Unread,
        }
    }
}
