use entries::{Entry, JournalKind, Line, MeterReading, read_line};
use rates::RateList;
use std::process::Abort;

#[test]
fn entries(rt: HostRuntime) {
    assert!(rt;
        matches!(
            read_line("open,65535,table,0"),
            Line::Entry(Entry::Open {
                year: 65_535,
                journal: JournalKind::Table(0)
            })
        )
    );
    assert!(rt;
        matches!(
            read_line("open,0,entries,1000000"),
            Line::Entry(Entry::Open {
                year: 0,
                journal: JournalKind::Entries(1_000_000)
            })
        )
    );
    assert!(rt;
        matches!(
            read_line("file,7,-1\r"),
            Line::Entry(Entry::File {
                project: 7,
                requirement: -1
            })
        )
    );
    assert!(rt;
        matches!(
            read_line("post,1"),
            Line::Entry(Entry::Post { forecast: 1 })
        )
    );
    let reading = MeterReading {
        participant: 7,
        month: 1,
        kwh: 1_000,
    };
    assert!(rt; matches!(read_line("bill,7,1,1000"), Line::Entry(Entry::Bill(r)) if r == reading));
    assert!(rt;
        matches!(read_line("resettle,7,1,1000"), Line::Entry(Entry::Resettle(r)) if r == reading)
    );
    for line in ["pay", "pay,", "pay,,,,\r"] {
        assert!(rt; matches!(read_line(line), Line::Entry(Entry::Pay)));
    }
    assert!(rt;
        matches!(
            read_line("state,7,9223372036854775807"),
            Line::Entry(Entry::State {
                project: 7,
                actual: i64::MAX
            })
        )
    );
    assert!(rt;
        matches!(
            read_line("look,-9223372036854775808"),
            Line::Entry(Entry::Look { project: i64::MIN })
        )
    );
}

/// The line closes a year with a list that has this rate in this month.
fn closes_with(rt: &(impl Abort + AllocGlobal), line: &str, month: u32, rate: Option<u32>) {
    match read_line(line) {
        Line::Entry(Entry::Close(list)) => {
            let named = list.named(rt.alloc());
            assert!(rt; named.is_ok_and(|named| named.rate(month) == rate));
        }
        _ => assert!(rt; false),
    }
}

#[test]
fn lists(rt: HostRuntime) {
    closes_with(&rt, "close,flat,25", 0, Some(25));
    closes_with(&rt, "close,quarter,1,40,100001,60", 3, Some(40));
    closes_with(&rt, "close,quarter,1,40,100001,60,,,", 3, Some(40));
    closes_with(&rt, "close,quarter,1,40,100001,60", 6, None);
    closes_with(&rt, "close,holding,quarter,1,40,100001,60", 6, Some(40));
    closes_with(&rt, "close,holding,flat,4294967295", 6, None);
}

#[test]
fn no_entries(rt: HostRuntime) {
    for line in ["", "\r", ",", ",,\r", "#", "# pay", "#\r", "\"# a, b\",,"] {
        assert!(rt; matches!(read_line(line), Line::Passed));
    }
    let unread = [
        " pay",
        "pay, ",
        ",pay",
        "pay,\r,",
        "\"pay\"",
        "pay ",
        "Pay",
        "pay\r\r",
        "pay\n",
        "post",
        "post,",
        "post,01",
        "post,-0",
        "post,+1",
        "post, 1",
        "post,1 ",
        "post,,1",
        "post,9223372036854775808",
        "file,1",
        "file,1,2,3",
        "bill,1,2",
        "bill,1,2,3,4",
        "open,65536,table,1",
        "open,-1,table,1",
        "open,1,table,65536",
        "open,1,entries,1000001",
        "open,1,list,1",
        "open,1,table",
        "close",
        "close,flat",
        "close,flat,-1",
        "close,flat,4294967296",
        "close,flat,1,2",
        "close,quarter,1",
        "close,quarter,1,",
        "close,quarter,1,,2",
        "close,holding",
        "close,holding,holding,flat,1",
        "bill",
        "é",
    ];
    for line in unread {
        assert!(rt; matches!(read_line(line), Line::Unread));
    }
}
