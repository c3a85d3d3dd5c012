//! A million puts and looks on a full table journal, or as many millions as its argument says, to be
//! timed beside the same in Rust.
#![tactic(auto)]

use journals::{Journal, TableJournal};
use std::{env, io};

/// How many numbers a full table has.
const FULL: usize = 786_420;

/// How many puts make a round, and as many looks.
const CALLS: u32 = 1_000_000;

/// The next of a run of numbers that look made at random.
fn next(number: u32) -> u32 {
    number.wrapping_mul(1_664_525).wrapping_add(1_013_904_223)
}

/// A participant of the number.
fn participant(number: u32) -> u32 {
    (number >> 8) % 65_535 + 1
}

/// A month of the number.
fn month(number: u32) -> u32 {
    (number >> 4) % 12 + 1
}

/// Puts and looks; answers the sum of what the looks answered and of the puts that were accepted.
fn puts_and_looks(table: &mut TableJournal, rounds: u32) -> u64 {
    let mut number = 1;
    let mut sum = 0u64;
    for _ in 0..rounds {
        for _ in 0..CALLS {
            number = next(number);
            let put = table.put(participant(number), month(number), u64::from(number));
            number = next(number);
            let held = table.look(participant(number), month(number)).unwrap_or(0);
            sum = sum.wrapping_add(held).wrapping_add(u64::from(put.is_ok()));
        }
    }
    sum
}

fn main(rt: HostRuntime) -> io::Result<()> {
    let rounds = match env::args(&rt)?.nth(1) {
        Some(argument) => argument.parse().unwrap_or(1),
        None => 1,
    };
    let mut table = TableJournal::new(vec![in rt.alloc(); 0; FULL]?);
    println!(rt; "{}", puts_and_looks(&mut table, rounds))
}
