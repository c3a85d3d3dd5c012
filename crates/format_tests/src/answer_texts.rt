use answers::Answer;
use settlement::{Refusal, RowAnswer, State};
use std::process::Abort;

/// The answer prints as this text.
fn prints(rt: &(impl Abort + AllocGlobal), answer: Answer, text: &str) {
    assert!(rt;
        answer
            .to_string(rt.alloc())
            .is_ok_and(|printed| printed.as_str() == text)
    );
}

#[test]
fn answers(rt: HostRuntime) {
    prints(&rt, Answer::Opened { year: 2026 }, "opened 2026");
    prints(&rt, Answer::Filed, "filed");
    prints(&rt, Answer::Rate(30_000), "rate 30000");
    prints(&rt, Answer::Charge(300), "charge 300");
    prints(&rt, Answer::Change(-200), "change -200");
    prints(
        &rt,
        Answer::Paid {
            change: 99,
            till: 1,
        },
        "paid 99 till 1",
    );
    prints(&rt, Answer::Stated, "stated");
    prints(&rt, Answer::Closed { year: 2027 }, "closed 2027");
    prints(&rt, Answer::Refused(Refusal::AlreadyHeld), "refused 10");
    prints(&rt, Answer::Unread, "unread");
    let row = RowAnswer {
        project: 7,
        due_now: 0,
        due_next: 3,
        paid: 33,
        kept: -17,
        requirement: Some(1),
        actual: None,
    };
    prints(
        &rt,
        Answer::Row(row),
        "row 7 due-now 0 due-next 3 paid 33 kept -17 requirement 1 actual -",
    );
    let draft = Answer::Year {
        year: 2027,
        state: State::Draft,
        money: 1,
        till: 1,
    };
    prints(&rt, draft, "year 2027 draft money 1 till 1");
    let posted = Answer::Year {
        year: 2027,
        state: State::Posted(30_000),
        money: -1,
        till: 0,
    };
    prints(&rt, posted, "year 2027 posted 30000 money -1 till 0");
}
