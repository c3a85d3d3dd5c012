use columns::{Refusal, read_number, write_number};
use std::process::Abort;

/// The field reads as the number, and writing the number into as many columns gives the field.
fn both_ways(rt: &impl Abort, field: &[u8], n: i128) {
    assert_eq!(rt; read_number(field), Ok(n));
    assert!(rt; field.len() <= 42);
    let mut room = [b'?'; 42];
    let columns = &mut room[..field.len()];
    assert_eq!(rt; write_number(columns, n), Ok(()));
    assert!(rt; &*columns == field);
}

#[test]
fn numbers(rt: HostRuntime) {
    both_ways(&rt, b"0", 0);
    both_ways(&rt, b"   0", 0);
    both_ways(&rt, b"  -1", -1);
    both_ways(&rt, b"-1", -1);
    both_ways(&rt, b" 9", 9);
    both_ways(&rt, b"10", 10);
    both_ways(&rt, b" 170141183460469231731687303715884105727", i128::MAX);
    both_ways(&rt, b"-170141183460469231731687303715884105728", i128::MIN);
}

#[test]
fn no_numbers(rt: HostRuntime) {
    let fields: [&[u8]; 15] = [
        b"",
        b"   ",
        b"-",
        b"- 1",
        b"+1",
        b"01",
        b" 00",
        b"-0",
        b"-01",
        b"1 ",
        b"1 2",
        b"\x001",
        b"1\xff",
        b"\xd9\xa1",
        b"170141183460469231731687303715884105728",
    ];
    for field in fields {
        assert_eq!(rt; read_number(field), Err(Refusal::NotANumber));
    }
    assert_eq!(rt; Refusal::NotANumber.number(), 31);
}

#[test]
fn too_wide(rt: HostRuntime) {
    let mut columns = *b"ab";
    assert_eq!(rt; write_number(&mut columns, 100), Err(Refusal::TooWide));
    assert_eq!(rt; write_number(&mut columns, -10), Err(Refusal::TooWide));
    assert!(rt; columns == *b"ab");
    assert_eq!(rt; write_number(&mut columns[..0], 0), Err(Refusal::TooWide));
    assert_eq!(rt; Refusal::TooWide.number(), 31);
}
