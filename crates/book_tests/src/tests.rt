mod limits;
mod money;
mod refusals;
mod rows;
mod standing;
mod years;

use crate::call::{Answer, Call};
use book::Book;
use journals::{Entry, EntryJournal, Journal, TableJournal};
use settlement::{RowAnswer, Standing};
use std::process::Abort;

/// A call, and what the book answers.
type Step = (Call, Answer);

/// A number that the run of each journal holds, until opening the book wipes it.
const HELD_BEFORE: u64 = 5;

/// A book over a table with the places of participant 1.
fn book_over_table(rt: &(impl Abort + AllocGlobal), year: u16) -> Book<TableJournal> {
    let numbers = vec![in rt.alloc(); HELD_BEFORE; 12].expect(rt, "memory for a table");
    Book::open(TableJournal::new(numbers), year)
}

/// A book over one entry: the first bill fills the journal.
fn book_over_entry(rt: &(impl Abort + AllocGlobal), year: u16) -> Book<EntryJournal> {
    let entry = Entry {
        participant: 1,
        month: 1,
        kwh: HELD_BEFORE,
    };
    let entries = vec![in rt.alloc(); entry].expect(rt, "memory for an entry");
    Book::open(EntryJournal::new(entries), year)
}

/// What is seen of a book: where it stands, and the rows at positions 0 to 2.
type Shown = (Standing, [Option<RowAnswer>; 3]);

fn shown<J: Journal>(book: &Book<J>) -> Shown {
    let rows = [book.row_at(0), book.row_at(1), book.row_at(2)];
    (book.standing(), rows)
}

/// Makes a call. It has its answer, and a refused one changes nothing that is seen.
fn check_step<J: Journal>(rt: &impl Abort, book: &mut Book<J>, place: usize, step: Step) {
    let before = shown(book);
    let answer = step.0.on(book);
    assert_eq!(rt; answer, step.1, "at step {place}");
    if matches!(answer, Answer::Refused(_)) {
        check_shown(rt, book, place, &before);
    }
}

fn check_shown<J: Journal>(rt: &impl Abort, book: &Book<J>, place: usize, before: &Shown) {
    assert!(rt; shown(book) == *before, "step {place} changed the book");
}

/// Makes the calls one after another.
fn check_steps<J: Journal>(rt: &impl Abort, book: &mut Book<J>, steps: &[Step]) {
    for (place, step) in steps.iter().enumerate() {
        check_step(rt, book, place, *step);
    }
}

/// The same on a new book over either journal.
fn check_year(rt: &(impl Abort + AllocGlobal), year: u16, steps: &[Step]) {
    check_steps(rt, &mut book_over_table(rt, year), steps);
    check_steps(rt, &mut book_over_entry(rt, year), steps);
}
