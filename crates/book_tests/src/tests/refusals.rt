use crate::call::Answer::{Amount, Done, Paid, Refused};
use crate::call::Call::{Bill, Close, File, Look, Pay, Post, Resettle, State};
use crate::tests::{Step, check_year};

// Each refused call is answered no at the questions in the comment, and refused by the first.

#[rattlefmt::skip]
static POST: [Step; 16] = [
    (Post(0), Refused(5)), // 5, 6, 7
    (File(7, 0), Done),
    (Post(0), Refused(6)), // 6, 7
    (Post(1_000_000_001), Refused(6)), // 6, 7
    (Post(1), Refused(7)),
    (File(7, 101), Done),
    (Post(1), Refused(7)),
    (File(7, 1), Done),
    (Post(1_000_000_000), Refused(7)),
    (Post(20_001), Refused(7)),
    (Post(20_000), Amount(1)),
    (Post(0), Refused(2)), // 2, 6
    (State(7, 0), Done),
    (Close(0), Done),
    (Post(0), Refused(5)), // 5, 6
    (Post(1), Refused(5)), // 5, 7
];

#[test]
fn post_asks_2_5_6_7(rt: HostRuntime) {
    check_year(&rt, 2026, &POST);
}

#[rattlefmt::skip]
static BILL: [Step; 15] = [
    (Bill(0, 1, 0), Refused(8)), // 8, 9
    (Bill(1, 1, 0), Refused(9)),
    (File(7, 100), Done),
    (Post(1), Amount(1_000_000)),
    (Bill(1, 1, 9_000_000_000), Amount(90_000_000_000)),
    (Bill(0, 1, 9_000_000_000), Refused(8)), // 8, 11
    (Bill(65_536, 1, 9_000_000_000), Refused(8)), // 8, 11
    (Bill(1, 0, 9_000_000_000), Refused(8)), // 8, 11
    (Bill(1, 13, 9_000_000_000), Refused(8)), // 8, 11
    (Bill(1, 1, -1), Refused(8)), // 8, 10
    (Bill(1, 1, 10_000_000_001), Refused(8)), // 8, 10, 11
    (Bill(1, 1, 10_000_000_000), Refused(10)), // 10, 11
    (Bill(1, 1, 0), Refused(10)),
    (Bill(2, 1, 1), Refused(11)), // 11, 12
    (Bill(2, 1, 0), Refused(12)),
];

#[test]
fn bill_asks_8_9_10_11_12(rt: HostRuntime) {
    check_year(&rt, 2026, &BILL);
}

#[rattlefmt::skip]
static RESETTLE: [Step; 10] = [
    (Resettle(0, 1, 0), Refused(8)), // 8, 9
    (Resettle(1, 1, 0), Refused(9)),
    (File(7, 100), Done),
    (Post(1), Amount(1_000_000)),
    (Resettle(1, 13, 10_000_000_000), Refused(8)), // 8, 13, 11
    (Bill(1, 1, 9_000_000_000), Amount(90_000_000_000)),
    (Resettle(2, 1, 10_000_000_000), Refused(13)), // 13, 11
    (Resettle(1, 1, 10_000_000_000), Refused(11)),
    (Resettle(1, 1, 9_000_000_000), Amount(0)),
    (Resettle(1, 1, 0), Amount(-90_000_000_000)),
];

#[test]
fn resettle_asks_8_9_13_11(rt: HostRuntime) {
    check_year(&rt, 2026, &RESETTLE);
}

#[rattlefmt::skip]
static ROW_CALLS: [Step; 15] = [
    (State(0, -1), Refused(1)), // 1, 9, 14, 15
    (State(7, -1), Refused(9)), // 9, 14, 15
    (Look(0), Refused(1)), // 1, 14
    (Look(7), Refused(14)),
    (Pay, Refused(9)),
    (File(7, 1), Done),
    (Post(1), Amount(10_000)),
    (Pay, Paid(0, 0)),
    (State(100_000_000, -1), Refused(1)), // 1, 14, 15
    (State(99_999_999, -1), Refused(14)), // 14, 15
    (State(7, -1), Refused(15)),
    (State(7, 100_000_001), Refused(15)),
    (State(7, 100_000_000), Done),
    (Look(100_000_000), Refused(1)), // 1, 14
    (Look(99_999_999), Refused(14)),
];

#[test]
fn pay_asks_9_and_state_asks_1_9_14_15_and_look_asks_1_14(rt: HostRuntime) {
    check_year(&rt, 2026, &ROW_CALLS);
}

// A rate of 100,001 counts as none. Of the actual of 100,000,000 dollars 10 cents are paid: at a rate
// of 1 it bears interest of 24,000 cents.
#[rattlefmt::skip]
static CLOSE: [Step; 11] = [
    (Close(100_001), Refused(9)), // 9, 19
    (File(7, 100), Done),
    (Post(1), Amount(1_000_000)),
    (Bill(1, 1, 1), Amount(10)),
    (Close(100_001), Refused(16)), // 16, 17, 19
    (State(7, 100_000_000), Done),
    (Close(100_001), Refused(17)), // 17, 19
    (Pay, Paid(10, 0)),
    (Close(100_001), Refused(19)),
    (Close(1), Refused(20)),
    (Close(0), Done),
];

#[test]
fn close_asks_9_16_17_19_20(rt: HostRuntime) {
    check_year(&rt, 2026, &CLOSE);
}

#[rattlefmt::skip]
static CLOSE_OF_THE_LAST_YEAR: [Step; 11] = [
    (Close(100_001), Refused(9)), // 9, 18, 19
    (File(7, 100), Done),
    (Post(1), Amount(1_000_000)),
    (Bill(1, 1, 1), Amount(10)),
    (Close(100_001), Refused(16)), // 16, 17, 18, 19
    (State(7, 100_000_000), Done),
    (Close(100_001), Refused(17)), // 17, 18, 19
    (Pay, Paid(10, 0)),
    (Close(100_001), Refused(18)), // 18, 19
    (Close(1), Refused(18)), // 18, 20
    (Close(0), Refused(18)),
];

#[test]
fn close_asks_18_before_19_and_20(rt: HostRuntime) {
    check_year(&rt, 65_535, &CLOSE_OF_THE_LAST_YEAR);
}
