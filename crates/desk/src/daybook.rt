use crate::calls::perform;
use crate::journal::DeskJournal;
use crate::lines::{Lines, RawLine};
use answers::Answer;
use book::Book;
use entries::{Entry, Line};
use std::alloc::{AllocError, Global};
use std::io;
use std::io::{BufRead, BufReader, BufWriter, Read, Write};
use thiserror::Error;

/// How many bytes are read and written at once.
const BLOCK: usize = 65_536;

/// Why a daybook was not answered to its end.
#[derive(Debug, Drop, Error)]
pub enum DaybookError {
    #[error("the daybook cannot be read: {0}")]
    Unreadable(io::Error),
    #[error("the answers cannot be written: {0}")]
    Unwritable(io::Error),
    #[error("line {line} cannot be answered: no memory for its journal or its rate list")]
    OutOfMemory { line: u64 },
}

/// A daybook, answered entry by entry.
#[derive(Drop)]
pub struct Daybook<W> {
    alloc: Global,
    out: W,
    explain: bool,
    book: Option<Book<DeskJournal>>,
}

impl<W: Write + Drop> Daybook<W> {
    /// A daybook with no book open. With `explain` its answers also say in words why an entry is
    /// refused or unread.
    pub fn new(alloc: Global, out: W, explain: bool) -> Daybook<W> {
        Daybook {
            alloc,
            out,
            explain,
            book: None,
        }
    }

    /// Writes what was answered.
    pub fn flush(&mut self) -> Result<(), DaybookError> {
        self.out.flush().map_err(DaybookError::Unwritable)
    }

    /// Answers every line, and shows the last book.
    pub fn answer_all<R: BufRead>(&mut self, lines: &mut Lines<R>) -> Result<(), DaybookError> {
        for number in 1..u64::MAX {
            let line = lines.next_line().map_err(DaybookError::Unreadable)?;
            let Some(line) = line else {
                break;
            };
            self.answer_line(number, line)?;
        }
        self.show_book().map_err(DaybookError::Unwritable)
    }

    fn answer_line(&mut self, number: u64, line: RawLine<'_>) -> Result<(), DaybookError> {
        let (answer, why_unread) = match line.read() {
            Line::Passed => return Ok(()),
            Line::Unread => (Answer::Unread, "no entry is written like this"),
            Line::Entry(entry) => {
                if matches!(&entry, Entry::Open { .. }) {
                    self.show_book().map_err(DaybookError::Unwritable)?;
                }
                let answer = self
                    .answer(&entry)
                    .map_err(|_| DaybookError::OutOfMemory { line: number })?;
                (answer, "no book is open")
            }
        };
        self.show_answer(number, line.shown(), &answer, why_unread)
            .map_err(DaybookError::Unwritable)
    }

    /// Performs an entry: an open begins another book.
    fn answer(&mut self, entry: &Entry<'_>) -> Result<Answer, AllocError> {
        match (entry, &mut self.book) {
            (Entry::Open { year, journal }, book) => {
                let journal = DeskJournal::new(self.alloc, *journal)?;
                *book = Some(Book::open(journal, *year));
                Ok(Answer::Opened { year: *year })
            }
            (_, Some(book)) => perform(self.alloc, book, entry),
            (_, None) => Ok(Answer::Unread),
        }
    }

    fn show_answer(
        &mut self,
        number: u64,
        line: &[u8],
        answer: &Answer,
        why_unread: &str,
    ) -> io::Result<()> {
        write!(self.out, "{number}: ")?;
        self.out.write_all(line)?;
        match answer {
            Answer::Refused(refusal) if self.explain => {
                writeln!(self.out, " -> {answer}: {refusal}")
            }
            Answer::Unread if self.explain => writeln!(self.out, " -> {answer}: {why_unread}"),
            _ => writeln!(self.out, " -> {answer}"),
        }
    }

    /// How the year of the open book stands, and its rows.
    fn show_book(&mut self) -> io::Result<()> {
        let Some(book) = &self.book else {
            return Ok(());
        };
        let standing = book.standing();
        let year = Answer::Year {
            year: standing.year,
            state: standing.state,
            money: standing.money,
            till: standing.till,
        };
        writeln!(self.out, "{year}")?;
        for row in (0..standing.rows).filter_map(|position| book.row_at(position)) {
            writeln!(self.out, "{}", Answer::Row(row))?;
        }
        Ok(())
    }
}

/// Answers the daybook of an input. What was answered is written, also where a later line cannot be
/// read or answered.
pub fn answer_input<R: Read + Drop, W: Write + Drop>(
    alloc: Global,
    input: R,
    out: W,
    explain: bool,
) -> Result<(), DaybookError> {
    let input = BufReader::with_capacity(alloc, BLOCK, input).map_err(DaybookError::Unreadable)?;
    let mut lines = Lines::new(alloc, input).map_err(DaybookError::Unreadable)?;
    let out = BufWriter::with_capacity(alloc, BLOCK, out).map_err(DaybookError::Unwritable)?;
    let mut daybook = Daybook::new(alloc, out, explain);
    let answered = daybook.answer_all(&mut lines);
    daybook.flush()?;
    answered
}
