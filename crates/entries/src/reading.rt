ghost use Rattle.std.specs.Prelude.{◌≡◌};
ghost use Rattle.entries.specs.Readings.{entry_in, given_list_in, journal_in, list_in, meter_reading_in, named_in, open_in};

use crate::entry::{Entry, MeterReading};
use crate::given_list::{GivenList, ListEntry, read_rates};
use crate::journal_kind::JournalKind;
use crate::numbers::{number, number_u16, number_u32, two_numbers};
use crate::words::split_word;

/// The most records that an entry journal may have room for.
const MOST_RECORDS: u32 = 1_000_000;

fn read_journal(words: &str) -> Option<JournalKind>
    ensures { result ≡ journal_in words.now }
{
    let (kind, size) = split_word(words);
    match kind {
        "table" => number_u16(size).map(JournalKind::Table),
        "entries" => number_u32(size)
            .filter(|records| *records <= MOST_RECORDS)
            .map(JournalKind::Entries),
        _ => None,
    }
}

fn read_open(words: &str) -> Option<Entry<'_>>
    ensures { result ≡ open_in words.now }
{
    let (year, journal) = split_word(words);
    Some(Entry::Open {
        year: number_u16(year)?,
        journal: read_journal(journal)?,
    })
}

fn read_meter_reading(words: &str) -> Option<MeterReading>
    ensures { result ≡ meter_reading_in words.now }
{
    let (participant, others) = split_word(words);
    let participant = number(participant)?;
    let (month, kwh) = two_numbers(others)?;
    Some(MeterReading {
        participant,
        month,
        kwh,
    })
}

/// A list below any holding.
fn read_given_list(words: &str) -> Option<GivenList<'_>>
    ensures { result ≡ given_list_in words.now }
{
    let (kind, others) = split_word(words);
    match kind {
        "flat" => Some(GivenList::Flat(number_u32(others)?)),
        "quarter" => {
            let (first, rates) = split_word(others);
            Some(GivenList::Quarter {
                first: number_u32(first)?,
                rates: read_rates(rates)?,
            })
        }
        _ => None,
    }
}

fn read_list(words: &str) -> Option<ListEntry<'_>>
    ensures { result ≡ list_in words.now }
{
    let (holding, list) = match split_word(words) {
        ("holding", held) => (true, held),
        _ => (false, words),
    };
    Some(ListEntry {
        holding,
        list: read_given_list(list)?,
    })
}

/// The entry with this name and these words after it.
fn read_named<'a>(name: &str, words: &'a str) -> Option<Entry<'a>>
    ensures { result ≡ named_in name.now words.now }
{
    match name {
        "open" => read_open(words),
        "file" => {
            let (project, requirement) = two_numbers(words)?;
            Some(Entry::File {
                project,
                requirement,
            })
        }
        "post" => Some(Entry::Post {
            forecast: number(words)?,
        }),
        "bill" => Some(Entry::Bill(read_meter_reading(words)?)),
        "resettle" => Some(Entry::Resettle(read_meter_reading(words)?)),
        "state" => {
            let (project, actual) = two_numbers(words)?;
            Some(Entry::State { project, actual })
        }
        "close" => Some(Entry::Close(read_list(words)?)),
        "look" => Some(Entry::Look {
            project: number(words)?,
        }),
        _ => None,
    }
}

/// The entry whose text a line is.
pub(crate) fn read_entry(line: &str) -> Option<Entry<'_>>
    ensures { result ≡ entry_in line.now }
{
    match line {
        "pay" => Some(Entry::Pay),
        _ => {
            let (name, words) = split_word(line);
            read_named(name, words)
        }
    }
}
