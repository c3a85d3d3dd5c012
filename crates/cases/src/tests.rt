use sheets::{
    AttachmentCc, AttachmentMm, Columns, Figure, OpenSheet, Project, Refusal, Template, WorkedSheet,
};
use std::test::Fail;

/// A figure by the label of its line.
type Entry = (&'static str, i64);

const MM_FIGURES: [Entry; AttachmentMm::LINE_COUNT] = [
    ("1", 1_000_000_000),
    ("1a", 400_000_000),
    ("3", 30_000_000),
    ("3a", 12_000_000),
    ("3b", 1_000_000),
    ("3c", 1_000_000),
    ("5", 3_000_000),
    ("7", 12_000_000),
    ("10", 18_000_000),
    ("12", 42_000_000),
];

const CC_FIGURES: [Entry; AttachmentCc::LINE_COUNT] = [
    ("1", 1_865_000_000),
    ("2", 1_305_500_000),
    ("3", 52_989_310),
    ("5", 3_247_214),
    ("7", 12_975_857),
    ("10", 47_594_197),
    ("12", 100_209_722),
];

fn enter_all<T: Template>(sheet: &mut OpenSheet<T>, figures: &[Entry]) -> Result<(), Refusal> {
    for (label, amount) in figures {
        sheet.enter_labelled(label.as_bytes(), *amount)?;
    }
    Ok(())
}

fn sheet_of<T: Template>(figures: &[Entry]) -> Result<OpenSheet<T>, Refusal> {
    let mut sheet = OpenSheet::new();
    enter_all(&mut sheet, figures)?;
    Ok(sheet)
}

/// The sheet of `MM_FIGURES`, with other amounts on some lines.
fn mm_sheet_with(changes: &[Entry]) -> Result<OpenSheet<AttachmentMm>, Refusal> {
    let mut sheet = sheet_of(&MM_FIGURES)?;
    enter_all(&mut sheet, changes)?;
    Ok(sheet)
}

fn finished<T: Template>(sheet: OpenSheet<T>) -> Result<WorkedSheet<T>, Refusal> {
    sheet.finish().map_err(|(refusal, _)| refusal)
}

/// The number of a call's refusal; an accepted call has none.
fn number<A: Drop>(answer: Result<A, Refusal>) -> Option<u8> {
    answer.err().map(Refusal::number)
}

fn price<T: Template>(
    sheet: &WorkedSheet<T>,
    gross_plant: i64,
    accumulated_depreciation: i64,
    depreciation_expense: i64,
) -> Result<Columns, Refusal> {
    sheet.price(Project {
        gross_plant,
        accumulated_depreciation,
        depreciation_expense,
    })
}

#[test]
fn mm_sheet_end_to_end(rt: HostRuntime) -> Result<(), Fail> {
    let sheet = finished(sheet_of::<AttachmentMm>(&MM_FIGURES)?)?;
    let factors = sheet.factors();
    assert_eq!(rt; factors.transmission_om, Some(250));
    assert_eq!(rt; factors.expense.total, 350);
    assert_eq!(rt; factors.returns.total, 1_000);
    let columns = price(&sheet, 20_000_000, 2_000_000, 400_000)?;
    assert_eq!(rt; columns.annual_expense_charge, 750_000);
    assert_eq!(rt; columns.annual_return_charge, 1_800_000);
    assert_eq!(rt; columns.depreciation_expense, 400_000);
    assert_eq!(rt; columns.annual_revenue_requirement, 2_950_000);
    Ok(())
}

#[test]
fn cc_sheet_end_to_end(rt: HostRuntime) -> Result<(), Fail> {
    let sheet = finished(sheet_of::<AttachmentCc>(&CC_FIGURES)?)?;
    let factors = sheet.factors();
    assert_eq!(rt; factors.transmission_om, None);
    assert_eq!(rt; factors.expense.total, 371);
    assert_eq!(rt; factors.returns.total, 1_132);
    let first = price(&sheet, 20_000_000, 500_000, 800_000)?;
    assert_eq!(rt; first.annual_revenue_requirement, 3_749_400);
    let second = price(&sheet, 10_000_000, 2_000_000, 200_000)?;
    assert_eq!(rt; second.annual_revenue_requirement, 1_476_600);
    let third = price(&sheet, 15_000_000, 0, 0)?;
    assert_eq!(rt; third.annual_revenue_requirement, 2_254_500);
    Ok(())
}

#[test]
fn negative_income_taxes_make_line_14_negative(rt: HostRuntime) -> Result<(), Fail> {
    let sheet = finished(mm_sheet_with(&[("10", -60_000_000)])?)?;
    assert_eq!(rt; sheet.factors().returns.total, -300);
    let columns = price(&sheet, 20_000_000, 2_000_000, 400_000)?;
    assert_eq!(rt; columns.annual_return_charge, -540_000);
    assert_eq!(rt; columns.annual_revenue_requirement, 610_000);
    Ok(())
}

/// An entry, and the number of its refusal if it is refused.
type EntryCase = (&'static str, i64, Option<u8>);

#[test]
fn entering_asks_21_and_then_22(rt: HostRuntime) {
    let entries: [EntryCase; 12] = [
        ("1A", 0, Some(21)),
        ("", 0, Some(21)),
        ("1a ", 0, Some(21)),
        (" 1", 0, Some(21)),
        ("2", -1, Some(21)),
        ("1", -1, Some(22)),
        ("1", 0, None),
        ("1", 10_000_000_000, None),
        ("1", 10_000_000_001, Some(22)),
        ("10", -10_000_000_000, None),
        ("10", -10_000_000_001, Some(22)),
        ("12", -1, Some(22)),
    ];
    let mut sheet = OpenSheet::<AttachmentMm>::new();
    for (label, amount, refusal) in entries {
        assert_eq!(rt;
            number(sheet.enter_labelled(label.as_bytes(), amount)),
            refusal
        );
    }
    assert_eq!(rt; sheet.figure(Figure::GrossPlant), Some(10_000_000_000));
}

/// The number of what finishing answers with these other amounts, if it refuses.
fn finish_number(changes: &[Entry]) -> Result<Option<u8>, Refusal> {
    Ok(number(finished(mm_sheet_with(changes)?)))
}

#[test]
fn finishing_asks_every_base_and_line_3d(rt: HostRuntime) -> Result<(), Fail> {
    let changes: [EntryCase; 8] = [
        ("1a", 0, Some(24)),
        ("1a", 1, Some(26)),
        ("1a", 1_000_000_000, Some(24)),
        ("1", 0, Some(24)),
        ("3a", 1_999_999, Some(25)),
        ("3a", 2_000_000, None),
        ("3a", 32_000_000, None),
        ("3a", 32_000_001, Some(25)),
    ];
    for (label, amount, refusal) in changes {
        assert_eq!(rt; finish_number(&[(label, amount)])?, refusal);
    }
    Ok(())
}

#[test]
fn finishing_asks_the_factors_last(rt: HostRuntime) -> Result<(), Fail> {
    assert_eq!(rt; finish_number(&[("12", 5_982_029_999)])?, None);
    assert_eq!(rt; finish_number(&[("12", 5_982_030_000)])?, Some(26));
    let changes = [("3a", 0), ("12", 10_000_000_000), ("1a", 0)];
    assert_eq!(rt; finish_number(&changes[..2])?, Some(25));
    assert_eq!(rt; finish_number(&changes)?, Some(24));
    Ok(())
}

#[test]
fn a_refused_finish_gives_the_sheet_back(rt: HostRuntime) -> Result<(), Fail> {
    let mut sheet = OpenSheet::<AttachmentCc>::new();
    assert_eq!(rt; number(sheet.enter_labelled(b"1", 7)), None);
    let Err((refusal, sheet)) = sheet.finish() else {
        return Err(Fail::new("finished with one figure"));
    };
    assert_eq!(rt; refusal.number(), 23);
    assert_eq!(rt; sheet.figure(Figure::GrossPlant), Some(7));
    assert_eq!(rt; sheet.figure(Figure::NetPlant), None);
    Ok(())
}

#[test]
fn pricing_asks_27_and_then_28(rt: HostRuntime) -> Result<(), Fail> {
    let projects: [(i64, i64, i64, Option<u8>); 10] = [
        (-1, 0, 0, Some(27)),
        (10_000_000_001, 0, 0, Some(27)),
        (5, 6, 0, Some(27)),
        (5, -1, 0, Some(27)),
        (5, 5, -1, Some(27)),
        (0, 0, 10_000_000_001, Some(27)),
        (10_000_000_000, 0, 10_000_000_000, Some(28)),
        (0, 0, 0, None),
        (0, 0, 100_000_000, None),
        (0, 0, 100_000_001, Some(28)),
    ];
    let sheet = finished(sheet_of::<AttachmentMm>(&MM_FIGURES)?)?;
    for (gross_plant, accumulated_depreciation, depreciation_expense, refusal) in projects {
        let answer = price(
            &sheet,
            gross_plant,
            accumulated_depreciation,
            depreciation_expense,
        );
        assert_eq!(rt; number(answer), refusal);
    }
    Ok(())
}

#[test]
fn a_negative_requirement_is_28(rt: HostRuntime) -> Result<(), Fail> {
    let sheet = finished(mm_sheet_with(&[("10", -102_000_000)])?)?;
    assert_eq!(rt; number(price(&sheet, 20_000_000, 0, 1_299_999)), Some(28));
    assert_eq!(rt; number(price(&sheet, 20_000_000, 0, 1_300_000)), None);
    Ok(())
}
