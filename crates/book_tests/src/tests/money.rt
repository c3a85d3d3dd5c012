use crate::call::Answer::{Amount, Done, Paid, Refused};
use crate::call::Call::{Bill, Close, File, Look, Pay, Post, Resettle, State};
use crate::tests::{Step, check_year};

#[rattlefmt::skip]
static ZERO_KWH: [Step; 6] = [
    (File(7, 1), Done),
    (Post(1), Amount(10_000)),
    (Bill(1, 1, 0), Amount(0)),
    (Bill(1, 1, 0), Refused(10)),
    (Bill(1, 1, 1_000), Refused(10)),
    (Resettle(1, 1, 1_000), Amount(100)),
];

#[test]
fn zero_kwh_are_held(rt: HostRuntime) {
    check_year(&rt, 2026, &ZERO_KWH);
}

#[rattlefmt::skip]
static FULL_JOURNAL: [Step; 9] = [
    (File(7, 100), Done),
    (Post(1), Amount(1_000_000)),
    (Bill(1, 1, 1_000), Amount(10_000)),
    (Bill(2, 1, 10), Refused(12)),
    (Bill(2, 1, 9_000_000_000), Refused(11)), // 11, 12
    (Resettle(1, 1, 2_000), Amount(10_000)),
    (Resettle(1, 1, 0), Amount(-20_000)),
    (Bill(2, 1, 0), Refused(12)),
    (Resettle(2, 1, 0), Refused(13)),
];

#[test]
fn full_journal_resettles_and_bills_no_more(rt: HostRuntime) {
    check_year(&rt, 2026, &FULL_JOURNAL);
}

#[rattlefmt::skip]
static RESETTLED_UNPAID: [Step; 10] = [
    (File(7, 1), Done),
    (Post(1), Amount(10_000)),
    (Bill(1, 1, 1_000), Amount(100)),
    (State(7, 1), Done),
    (Pay, Paid(100, 0)),
    (Resettle(1, 1, 990), Amount(-1)),
    (Close(0), Refused(17)),
    (Pay, Paid(-1, 0)),
    (Pay, Paid(0, 0)),
    (Close(0), Done),
];

#[test]
fn close_after_a_resettlement_asks_for_a_pay(rt: HostRuntime) {
    check_year(&rt, 2026, &RESETTLED_UNPAID);
}

// Column 16 is 1 for one row and 2 for the other.
#[rattlefmt::skip]
static THREE_CENTS: [Step; 11] = [
    (File(7, 1), Done),
    (File(9, 2), Done),
    (Post(1), Amount(30_000)),
    (Bill(1, 1, 3), Amount(1)),
    (Pay, Paid(0, 1)),
    (Resettle(1, 1, 7), Amount(1)),
    (Pay, Paid(1, 1)),
    (Resettle(1, 1, 10), Amount(1)),
    (Pay, Paid(2, 0)),
    (Look(7), Amount(1)),
    (Look(9), Amount(2)),
];

#[test]
fn three_steps_of_a_cent_pay_1_and_2(rt: HostRuntime) {
    check_year(&rt, 2026, &THREE_CENTS);
}
