//! Bills, resettlements and pays on a posted book of twenty rows, a million or as many millions as its
//! second argument says, to be timed beside the same in Rust. The first argument names the journal:
//! `table` for a full one, or `entries` for one of 480 records.
#![tactic(auto)]

use book::Book;
use journals::{Entry, EntryJournal, Journal, TableJournal};
use settlement::Refusal;
use std::{env, io};

/// How many calls make a round.
const CALLS: u32 = 1_000_000;

/// How many projects file.
const PROJECTS: i64 = 20;

/// Participants of the full table and of the entries, each with twelve months.
const MANY: u32 = 65_535;

const FEW: u32 = 40;

/// The next of a run of numbers that look made at random.
fn next(number: u32) -> u32 {
    number.wrapping_mul(1_664_525).wrapping_add(1_013_904_223)
}

/// A call in ten pays, three resettle and the others bill.
fn call<J: Journal>(book: &mut Book<J>, number: u32, kind: u32, few: bool) -> Result<i64, Refusal> {
    if kind == 9 {
        return book.pay().map(|(paid, _till)| paid);
    }
    let drawn = number >> 8;
    let participant = i64::from(if few { drawn % FEW } else { drawn % MANY } + 1);
    let month = i64::from((number >> 4) % 12 + 1);
    let kwh = i64::from(number % 10_000);
    if kind >= 6 {
        book.resettle(participant, month, kwh)
    } else {
        book.bill(participant, month, kwh)
    }
}

/// The sum of what the calls answer, a refusal counting as its number below 0.
fn drive<J: Journal>(book: &mut Book<J>, few: bool, rounds: u32) -> i64 {
    let mut number = 1;
    let mut sum = 0i64;
    for _ in 0..rounds {
        for kind in 0..CALLS {
            number = next(number);
            let answer = match call(book, number, kind % 10, few) {
                Ok(cents) => cents,
                Err(refusal) => -i64::from(refusal.number()),
            };
            sum = sum.wrapping_add(answer);
        }
    }
    sum
}

/// A book whose projects have filed and whose rate is posted.
fn posted<J: Journal + Drop>(journal: J) -> Result<Book<J>, Refusal> {
    let mut book = Book::open(journal, 2026);
    for project in 1..=PROJECTS {
        book.file(project, 1_000_000 + project)?;
    }
    book.post(1_000_000)?;
    Ok(book)
}

fn show<J: Journal + Drop>(rt: &impl Print, journal: J, few: bool, rounds: u32) -> io::Result<()> {
    match posted(journal) {
        Ok(mut book) => {
            let sum = drive(&mut book, few, rounds);
            let standing = book.standing();
            println!(rt; "{sum} {} {}", standing.money, standing.till)
        }
        Err(refusal) => println!(rt; "refused ({}): {refusal}", refusal.number()),
    }
}

fn main(rt: HostRuntime) -> io::Result<()> {
    let mut arguments = env::args(&rt)?;
    let entries = match arguments.nth(1) {
        Some(word) => word.as_str() == "entries",
        None => false,
    };
    let rounds = match arguments.next() {
        Some(argument) => argument.parse().unwrap_or(1),
        None => 1,
    };
    if entries {
        let records = vec![in rt.alloc(); Entry::UNUSED; 12 * FEW as usize]?;
        show(&rt, EntryJournal::new(records), true, rounds)
    } else {
        let numbers = vec![in rt.alloc(); 0; 12 * MANY as usize]?;
        show(&rt, TableJournal::new(numbers), false, rounds)
    }
}
