use crate::call::Answer::{Amount, Done, Paid, Refused};
use crate::call::Call;
use crate::call::Call::{Bill, Close, File, Pay, Post, Resettle, State};
use crate::tests::{Step, book_over_entry, book_over_table, check_step};
use book::Book;
use journals::Journal;
use settlement::Standing;
use std::process::Abort;

/// The worked year of docs/BOOK.md: each call with its answer, and then the money, what projects 7 and 9
/// are paid, and the till. The rates are 25,000.
#[rattlefmt::skip]
static WORKED_YEAR: [(Step, [i64; 4]); 10] = [
    ((File(7, 1), Done), [0, 0, 0, 0]),
    ((File(9, 2), Done), [0, 0, 0, 0]),
    ((Post(1), Amount(30_000)), [0, 0, 0, 0]),
    ((Bill(1, 1, 1_000), Amount(300)), [300, 0, 0, 300]),
    ((Bill(1, 1, 1_000), Refused(10)), [300, 0, 0, 300]),
    ((Resettle(1, 1, 333), Amount(-200)), [100, 0, 0, 100]),
    ((Pay, Paid(99, 1)), [100, 33, 66, 1]),
    ((State(7, 3), Done), [100, 33, 66, 1]),
    ((State(9, 1), Done), [100, 33, 66, 1]),
    ((Close(25_000), Done), [1, 0, 0, 1]),
];

fn paid_at<J: Journal>(book: &Book<J>, position: usize) -> i64 {
    match book.row_at(position) {
        Some(row) => row.paid,
        None => 0,
    }
}

fn cents_of<J: Journal>(book: &Book<J>) -> [i64; 4] {
    let standing = book.standing();
    let (first, second) = (paid_at(book, 0), paid_at(book, 1));
    [standing.money, first, second, standing.till]
}

fn check_cents<J: Journal>(rt: &impl Abort, book: &Book<J>, place: usize, cents: [i64; 4]) {
    assert_eq!(rt; cents_of(book), cents, "after step {place}");
}

fn check_worked_year<J: Journal>(rt: &impl Abort, book: &mut Book<J>) {
    for (place, (step, cents)) in WORKED_YEAR.iter().enumerate() {
        check_step(rt, book, place, *step);
        check_cents(rt, book, place, *cents);
    }
}

#[test]
fn worked_year_call_by_call(rt: HostRuntime) {
    check_worked_year(&rt, &mut book_over_table(&rt, 2026));
    check_worked_year(&rt, &mut book_over_entry(&rt, 2026));
}

/// A year of projects 7 and 9 with one bill, closed at one rate.
#[derive(Clone, Copy)]
struct Year {
    requirements: [i64; 2],
    forecast: i64,
    kwh: i64,
    actuals: [i64; 2],
    rate: u32,
}

/// Years one after another. What each close leaves is by the second program: the year, true-up and kept
/// cents of projects 7 and 9, and the money.
#[rattlefmt::skip]
static YEARS: [(Year, [i64; 6]); 12] = [
    (Year { requirements: [1_000, 500], forecast: 100, kwh: 90_000, actuals: [1_010, 480], rate: 25_000 }, [2027, 117, -40, 32, -20, 0]),
    (Year { requirements: [1_000, 500], forecast: 100, kwh: 110_000, actuals: [900, 520], rate: 0 }, [2028, -200, -40, -30, -20, 0]),
    (Year { requirements: [1_100, 450], forecast: 120, kwh: 100_000, actuals: [1_130, 430], rate: 100_000 }, [2029, 288, 32, 75, -38, 1]),
    (Year { requirements: [1_050, 470], forecast: 90, kwh: 95_001, actuals: [1_000, 470], rate: 12_345 }, [2030, -100, 21, -26, 45, 1]),
    (Year { requirements: [990, 600], forecast: 100, kwh: 80_000, actuals: [990, 601], rate: 25_000 }, [2031, 271, 15, 145, -39, 1]),
    (Year { requirements: [1_200, 100], forecast: 110, kwh: 70_000, actuals: [1_250, 20], rate: 31_000 }, [2032, 484, -37, -57, -43, 1]),
    (Year { requirements: [1_150, 213], forecast: 100, kwh: 101_010, actuals: [1_100, 290], rate: 28_750 }, [2033, -69, -17, 78, 2, 1]),
    (Year { requirements: [1_000, 320], forecast: 80, kwh: 88_888, actuals: [1_003, 333], rate: 19_999 }, [2034, -170, 19, -17, 2, 1]),
    (Year { requirements: [1_001, 310], forecast: 100, kwh: 100_001, actuals: [870, 310], rate: 99_999 }, [2035, -162, -26, 0, 2, 1]),
    (Year { requirements: [1_020, 330], forecast: 105, kwh: 98_765, actuals: [1_020, 345], rate: 1 }, [2036, 50, 21, 34, -39, 1]),
    (Year { requirements: [900, 340], forecast: 95, kwh: 95_000, actuals: [1_000, 340], rate: 50_000 }, [2037, 112, 21, 0, -39, 1]),
    (Year { requirements: [950, 350], forecast: 100, kwh: 104_000, actuals: [940, 360], rate: 25_000 }, [2038, -53, 21, -6, -7, 1]),
];

fn calls_of(year: &Year) -> [Call; 8] {
    let [requirement_7, requirement_9] = year.requirements;
    let [actual_7, actual_9] = year.actuals;
    [
        File(7, requirement_7),
        File(9, requirement_9),
        Post(year.forecast),
        Bill(1, 12, year.kwh),
        Pay,
        State(7, actual_7),
        State(9, actual_9),
        Close(year.rate),
    ]
}

fn true_up_at<J: Journal>(book: &Book<J>, position: usize) -> (i64, i64) {
    match book.row_at(position) {
        Some(row) => (row.due_next, row.kept),
        None => (0, 0),
    }
}

fn closed<J: Journal>(book: &Book<J>) -> [i64; 6] {
    let Standing { year, money, .. } = book.standing();
    let (true_up_7, kept_7) = true_up_at(book, 0);
    let (true_up_9, kept_9) = true_up_at(book, 1);
    [i64::from(year), true_up_7, kept_7, true_up_9, kept_9, money]
}

fn live_through<J: Journal>(book: &mut Book<J>, year: &Year) {
    for call in &calls_of(year) {
        call.on(book);
    }
}

fn check_years<J: Journal>(rt: &impl Abort, book: &mut Book<J>) {
    for (year, left) in &YEARS {
        live_through(book, year);
        assert_eq!(rt; closed(book), *left);
    }
}

#[test]
fn twelve_closes_settle_both_ways(rt: HostRuntime) {
    check_years(&rt, &mut book_over_table(&rt, 2026));
    check_years(&rt, &mut book_over_entry(&rt, 2026));
}
