use filing::{FilingReader, LONGEST, LineRefusal, Record, read_filing};
use sheets::Columns;
use std::test::Fail;

fn worked() -> &'static str {
    concat!(
        "T MM                                                    \n",
        "F  1  1000000000                                        \n",
        "F 1a   400000000                                        \n",
        "F  3    30000000                                        \n",
        "F 3a    12000000                                        \n",
        "F 3b     1000000                                        \n",
        "F 3c     1000000                                        \n",
        "F  5     3000000                                        \n",
        "F  7    12000000                                        \n",
        "F 10    18000000                                        \n",
        "F 12    42000000                                        \n",
        "P          7    20000000     2000000      400000        \n",
    )
}

fn two_templates() -> &'static str {
    concat!(
        "T MM                                                    \n",
        "T MM                                                    \n",
    )
}

fn three_lines() -> &'static str {
    concat!(
        "T MM                                                    \n",
        "F  1  1000000000                                        \n",
        "P          7    20000000     2000000      400000        \n",
    )
}

fn second_line_cut_short() -> &'static str {
    concat!(
        "T MM                                                    \n",
        "F  1  1000000000\n",
        "P          7    20000000     2000000      400000        \n",
    )
}

/// The line and the question of a refusal.
fn question(why: LineRefusal) -> (u16, u8) {
    (why.line, why.refusal.number())
}

/// The line and the question that refuse a filing.
fn refused(file: &str) -> Option<(u16, u8)> {
    Some(question(read_filing(file.as_bytes()).err()?))
}

/// The letter of a line that was read, where it begins and its number.
fn place(answer: Result<Option<Record>, LineRefusal>) -> Option<(char, usize, u16)> {
    let record = answer.ok()??;
    Some((record.letter, record.offset, record.line))
}

#[test]
fn worked_filing_is_priced(rt: HostRuntime) -> Result<(), Fail> {
    let Ok(projects) = read_filing(worked().as_bytes()) else {
        return Err(Fail::new("refused"));
    };
    let [only] = projects.as_slice() else {
        return Err(Fail::new("not one project"));
    };
    assert_eq!(rt; only.number, 7);
    assert_eq!(rt;
        only.columns,
        Columns {
            transmission_om_expense: 50_000,
            other_expense: 700_000,
            annual_expense_charge: 750_000,
            annual_return_charge: 1_800_000,
            depreciation_expense: 400_000,
            annual_revenue_requirement: 2_950_000,
        }
    );
    Ok(())
}

#[test]
fn first_line_refused(rt: HostRuntime) {
    assert_eq!(rt; refused(""), Some((1, 30)));
    assert_eq!(rt; refused("T MM"), Some((1, 29)));
    assert_eq!(rt; refused(two_templates()), Some((2, 30)));
}

#[test]
fn lines_are_read_in_order_with_their_places(rt: HostRuntime) -> Result<(), Fail> {
    let Ok(mut reader) = FilingReader::new(three_lines().as_bytes()) else {
        return Err(Fail::new("refused"));
    };
    assert_eq!(rt; place(reader.next_record()), Some(('T', 0, 1)));
    assert_eq!(rt; place(reader.next_record()), Some(('F', 57, 2)));
    assert_eq!(rt; place(reader.next_record()), Some(('P', 114, 3)));
    assert!(rt; matches!(reader.next_record(), Ok(None)));
    Ok(())
}

#[test]
fn refused_line_is_refused_again(rt: HostRuntime) -> Result<(), Fail> {
    let Ok(mut reader) = FilingReader::new(second_line_cut_short().as_bytes()) else {
        return Err(Fail::new("refused"));
    };
    assert_eq!(rt; place(reader.next_record()), Some(('T', 0, 1)));
    assert_eq!(rt; reader.next_record().err().map(question), Some((2, 29)));
    assert_eq!(rt; reader.next_record().err().map(question), Some((2, 29)));
    Ok(())
}

#[test]
fn file_too_long_is_refused_at_line_1(rt: HostRuntime) {
    let file = [b'\n'; LONGEST + 1];
    assert_eq!(rt; FilingReader::new(&file).err().map(question), Some((1, 29)));
    assert!(rt; FilingReader::new(&file[1..]).is_ok());
}
