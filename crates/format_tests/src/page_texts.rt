use page_text::{LONGEST_TEXT, PageRow, PageRows, Refusal, write_refusal, write_rows};
use std::process::Abort;

/// A priced project of Attachment MM.
const EXAMPLE: PageRow = PageRow {
    project_number: 7,
    annual_expense_charge: 750_000,
    annual_return_charge: 1_800_000,
    depreciation_expense: 400_000,
    annual_revenue_requirement: 2_950_000,
};

/// The widest numbers that a row can have, a return charge below zero among them.
const WIDEST: PageRow = PageRow {
    project_number: 99_999_999,
    annual_expense_charge: 120_000_000_000,
    annual_return_charge: -120_000_000_000,
    depreciation_expense: 10_000_000_000,
    annual_revenue_requirement: 100_000_000,
};

/// The run begins with the text, and its other bytes are as found.
fn holds(rt: &impl Abort, run: &[u8; LONGEST_TEXT], text: &[u8]) {
    assert!(rt; run.starts_with(text));
    for byte in run.iter().skip(text.len()) {
        assert!(rt; *byte == b'?');
    }
}

#[test]
fn one_row_and_its_sums(rt: HostRuntime) {
    let mut rows = PageRows::new();
    assert_eq!(rt; rows.push(EXAMPLE), Ok(()));
    let mut run = [b'?'; LONGEST_TEXT];
    assert_eq!(rt; write_rows(&mut run, &rows), 138);
    holds(
        &rt,
        &run,
        b"           7        750000       1800000        400000       2950000
           0        750000       1800000        400000       2950000
",
    );
}

#[test]
fn no_rows(rt: HostRuntime) {
    let mut run = [b'?'; LONGEST_TEXT];
    assert_eq!(rt; write_rows(&mut run, &PageRows::new()), 69);
    holds(
        &rt,
        &run,
        b"           0             0             0             0             0\n",
    );
}

#[test]
fn sixty_four_rows_are_full(rt: HostRuntime) {
    let mut rows = PageRows::new();
    for _ in 0..64 {
        assert_eq!(rt; rows.push(WIDEST), Ok(()));
    }
    assert_eq!(rt; rows.push(EXAMPLE), Err(Refusal::TooManyProjects));
    assert_eq!(rt; Refusal::TooManyProjects.number(), 32);
    assert_eq!(rt; rows.len(), 64);
    let mut run = [b'?'; LONGEST_TEXT];
    assert_eq!(rt; write_rows(&mut run, &rows), 4485);
    assert!(rt;
        run.ends_with(
            b"    99999999  120000000000 -120000000000   10000000000     100000000
           0 7680000000000-7680000000000  640000000000    6400000000
",
        )
    );
}

#[test]
fn a_refusal(rt: HostRuntime) {
    let mut run = [b'?'; LONGEST_TEXT];
    assert_eq!(rt; write_refusal(&mut run, 12, 31), 25);
    holds(&rt, &run, b"R         12          31\n");
    assert_eq!(rt; write_refusal(&mut run, u16::MAX, u8::MAX), 25);
    holds(&rt, &run, b"R      65535         255\n");
}
