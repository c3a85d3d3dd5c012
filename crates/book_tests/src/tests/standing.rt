use crate::call::Call;
use crate::call::Call::{Bill, Close, File, Pay, Post, State};
use crate::tests::{book_over_entry, shown};
use book::Book;
use journals::EntryJournal;
use settlement::{RowAnswer, Standing, State as YearState};
use std::process::Abort;

/// A row of a year without dues: project, requirement, actual and paid.
fn row_of(project: u32, requirement: i64, actual: Option<i64>, paid: i64) -> RowAnswer {
    RowAnswer {
        project,
        due_now: 0,
        due_next: 0,
        paid,
        kept: 0,
        requirement: Some(requirement),
        actual,
    }
}

/// A row after the first close: project, true-up and kept cents.
fn closed_row(project: u32, due_next: i64, kept: i64) -> RowAnswer {
    RowAnswer {
        project,
        due_now: 0,
        due_next,
        paid: 0,
        kept,
        requirement: None,
        actual: None,
    }
}

/// A year with two rows.
fn standing(year: u16, state: YearState, money: i64, till: i64) -> Standing {
    Standing {
        year,
        state,
        money,
        till,
        rows: 2,
    }
}

fn make(book: &mut Book<EntryJournal>, calls: &[Call]) {
    for call in calls {
        call.on(book);
    }
}

#[rattlefmt::skip]
static FILED: [Call; 2] = [File(7, 1), File(9, 2)];

#[rattlefmt::skip]
static PAID: [Call; 4] = [Post(1), Bill(1, 1, 333), Pay, State(7, 3)];

#[rattlefmt::skip]
static CLOSED: [Call; 2] = [State(9, 1), Close(25_000)];

/// The book stands so, with these rows and no other.
fn check_shown(rt: &impl Abort, book: &Book<EntryJournal>, at: Standing, rows: [RowAnswer; 2]) {
    let [first, second] = rows;
    assert!(rt; shown(book) == (at, [Some(first), Some(second), None]));
}

#[test]
fn no_row_stands_beyond_the_last(rt: HostRuntime) {
    let mut book = book_over_entry(&rt, 2026);
    make(&mut book, &FILED);
    for position in [2, 63, 64, usize::MAX] {
        assert_eq!(rt; book.row_at(position), None);
    }
}

#[test]
fn opened_book_has_nothing(rt: HostRuntime) {
    let book = book_over_entry(&rt, 65_535);
    let opened = Standing {
        year: 65_535,
        state: YearState::Draft,
        money: 0,
        till: 0,
        rows: 0,
    };
    assert!(rt; shown(&book) == (opened, [None, None, None]));
}

#[test]
fn draft_has_its_rows(rt: HostRuntime) {
    let mut book = book_over_entry(&rt, 2026);
    make(&mut book, &FILED);
    let rows = [row_of(7, 1, None, 0), row_of(9, 2, None, 0)];
    check_shown(&rt, &book, standing(2026, YearState::Draft, 0, 0), rows);
}

#[test]
fn posted_year_has_rate_money_and_till(rt: HostRuntime) {
    let mut book = book_over_entry(&rt, 2026);
    make(&mut book, &FILED);
    make(&mut book, &PAID);
    let rows = [row_of(7, 1, Some(3), 33), row_of(9, 2, None, 66)];
    check_shown(
        &rt,
        &book,
        standing(2026, YearState::Posted(30_000), 100, 1),
        rows,
    );
}

#[test]
fn closed_year_leaves_true_ups_and_the_till(rt: HostRuntime) {
    let mut book = book_over_entry(&rt, 2026);
    make(&mut book, &FILED);
    make(&mut book, &PAID);
    make(&mut book, &CLOSED);
    let rows = [closed_row(7, 3, -17), closed_row(9, 0, 36)];
    check_shown(&rt, &book, standing(2027, YearState::Draft, 1, 1), rows);
}
