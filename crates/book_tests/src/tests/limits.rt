use crate::call::Answer::{Amount, Done, Paid, Refused};
use crate::call::Call::{Bill, Close, File, Look, Pay, Post, Resettle, State};
use crate::tests::{Step, book_over_entry, check_steps, check_year};
use std::process::Abort;

#[rattlefmt::skip]
static DRAFT: [Step; 1] = [
    (File(7, 1), Done),
];

#[rattlefmt::skip]
static POSTED: [Step; 2] = [
    (Post(1), Amount(10_000)),
    (Bill(1, 1, 1_000), Amount(100)),
];

#[rattlefmt::skip]
fn calls_on_a_draft(extreme: i64) -> [Step; 6] {
    [
        (File(extreme, 1), Refused(1)),
        (File(extreme, extreme), Refused(1)),
        (File(7, extreme), Refused(4)),
        (File(9, extreme), Refused(4)),
        (Post(extreme), Refused(6)),
        (Look(extreme), Refused(1)),
    ]
}

#[rattlefmt::skip]
fn calls_on_a_posted_year(extreme: i64) -> [Step; 13] {
    [
        (Bill(extreme, 1, 1), Refused(8)),
        (Bill(1, extreme, 1), Refused(8)),
        (Bill(1, 1, extreme), Refused(8)),
        (Bill(extreme, extreme, extreme), Refused(8)),
        (Resettle(extreme, 1, 1), Refused(8)),
        (Resettle(1, extreme, 1), Refused(8)),
        (Resettle(1, 1, extreme), Refused(8)),
        (Resettle(extreme, extreme, extreme), Refused(8)),
        (State(extreme, 1), Refused(1)),
        (State(7, extreme), Refused(15)),
        (State(extreme, extreme), Refused(1)),
        (Bill(1, 1, 1_000), Refused(10)),
        (Resettle(1, 1, 1_000), Amount(0)),
    ]
}

fn check_extreme(rt: &(impl Abort + AllocGlobal), extreme: i64) {
    let mut book = book_over_entry(rt, 2026);
    check_steps(rt, &mut book, &DRAFT);
    check_steps(rt, &mut book, &calls_on_a_draft(extreme));
    check_steps(rt, &mut book, &POSTED);
    check_steps(rt, &mut book, &calls_on_a_posted_year(extreme));
}

#[test]
fn extreme_arguments_change_nothing(rt: HostRuntime) {
    check_extreme(&rt, i64::MIN);
    check_extreme(&rt, i64::MAX);
}

#[rattlefmt::skip]
static LAST_YEAR: [Step; 10] = [
    (File(7, 1), Done),
    (File(7, 2), Done),
    (Post(1), Amount(20_000)),
    (Bill(1, 1, 1_000), Amount(200)),
    (Resettle(1, 1, 500), Amount(-100)),
    (Pay, Paid(100, 0)),
    (State(7, 3), Done),
    (Look(7), Amount(100)),
    (Close(100_001), Refused(18)), // 18, 19
    (Close(0), Refused(18)),
];

#[test]
fn last_year_has_every_call_but_close(rt: HostRuntime) {
    check_year(&rt, 65_535, &LAST_YEAR);
}

#[rattlefmt::skip]
static LAST_CLOSE: [Step; 9] = [
    (File(7, 1), Done),
    (Post(1), Amount(10_000)),
    (State(7, 1), Done),
    (Close(0), Done),
    (File(7, 1), Done),
    (Post(1), Amount(10_000)),
    (Pay, Paid(0, 0)),
    (State(7, 1), Done),
    (Close(0), Refused(18)),
];

#[test]
fn year_before_the_last_is_closed(rt: HostRuntime) {
    check_year(&rt, 65_534, &LAST_CLOSE);
}
