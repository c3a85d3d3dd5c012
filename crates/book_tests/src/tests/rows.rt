use crate::call::Answer::{Amount, Done, Paid, Refused};
use crate::call::Call::{Bill, Close, File, Look, Pay, Post, State};
use crate::tests::{Step, book_over_table, check_steps, check_year};
use book::Book;
use journals::TableJournal;
use std::process::Abort;

#[rattlefmt::skip]
static REFUSED_FILES: [Step; 7] = [
    (File(7, -1), Refused(4)),
    (Look(7), Refused(14)),
    (File(7, 100_000_001), Refused(4)),
    (Post(1), Refused(5)),
    (File(7, 100_000_000), Done),
    (File(7, 0), Done),
    (Look(7), Amount(0)),
];

// A refused call changes nothing that `check_steps` sees, the number of rows too.
#[test]
fn file_refused_by_4_adds_no_row(rt: HostRuntime) {
    check_year(&rt, 2026, &REFUSED_FILES);
}

#[rattlefmt::skip]
static OVER_64_ROWS: [Step; 10] = [
    (File(0, -1), Refused(1)), // 1, 3, 4
    (File(65, -1), Refused(3)), // 3, 4
    (File(65, 1), Refused(3)),
    (Look(65), Refused(14)),
    (File(64, -1), Refused(4)),
    (File(64, 2), Done),
    (Post(1), Amount(650_000)),
    (File(0, -1), Refused(1)), // 1, 2, 3, 4
    (File(65, -1), Refused(2)), // 2, 3, 4
    (File(64, -1), Refused(2)), // 2, 4
];

/// A book with 64 rows, of projects 1 to 64.
fn book_of_64_rows(rt: &(impl Abort + AllocGlobal)) -> Book<TableJournal> {
    let mut book = book_over_table(rt, 2026);
    for project in 1..=64 {
        assert_eq!(rt; File(project, 1).on(&mut book), Done);
    }
    book
}

#[test]
fn row_of_64_files_again_and_a_65th_project_is_refused(rt: HostRuntime) {
    check_steps(&rt, &mut book_of_64_rows(&rt), &OVER_64_ROWS);
}

// A dollar too much is paid in 2026 and due back in 2028; a dollar too little in 2027 is due in 2029.
#[rattlefmt::skip]
static DUES: [Step; 23] = [
    (File(7, 1), Done),
    (Post(1), Amount(10_000)),
    (Bill(1, 1, 1_000), Amount(100)),
    (Pay, Paid(100, 0)),
    (State(7, 0), Done),
    (Close(0), Done),
    (File(7, 1), Done),
    (Post(1), Amount(10_000)),
    (State(7, 1), Done),
    (Close(0), Done),
    (File(7, 0), Refused(4)),
    (File(7, 100_000_001), Refused(4)),
    (File(7, 100_000_000), Done),
    (File(7, 1), Done),
    (Post(1), Refused(7)),
    (File(7, 2), Done),
    (Post(1), Amount(10_000)),
    (State(7, 1), Done),
    (Close(0), Done),
    (File(7, 100_000_000), Refused(4)),
    (File(7, 99_999_999), Done),
    (File(7, 0), Done),
    (Post(1), Amount(10_000)),
];

#[test]
fn file_asks_4_of_column_16_too(rt: HostRuntime) {
    check_year(&rt, 2026, &DUES);
}
