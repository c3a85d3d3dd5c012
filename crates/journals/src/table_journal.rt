ghost use Rattle.std.specs.Prelude.{◌≡◌, length};
ghost use Rattle.journals.specs.Table.{held_in, places_in, spot_in, table_held, table_place, TablePut, TableWiped};
ghost use Rattle.std.proofs.Common.{rules};

use crate::journal::{Journal, MOST_KWH, in_range};
use crate::refusal::Refusal;

/// A stored number that stands for none.
const NONE: u64 = u64::MAX;

/// The table journal: twelve numbers of a run for each participant, from participant 1 on.
#[derive(Drop)]
pub struct TableJournal {
    numbers: Vec<u64>,
}

impl TableJournal {
    /// The journal over a run, which holds what stands there; a number above the limit is none.
    pub fn new(numbers: Vec<u64>) -> TableJournal
        ensures holds_what_stands_in_the_run { table_held result ≡ held_in numbers.items }
        ensures places { table_place result ≡ places_in (length numbers.items) }
    {
        TableJournal { numbers }
    }
}

impl Journal for TableJournal {
    ghost held = { table_held };

    ghost place = { table_place };

    ghost put_leaves = { TablePut };

    ghost wipe_leaves = { TableWiped };

    ghost held_within_limit_at_places_in_range = { Prim.search rules };

    fn look(&self, participant: u32, month: u32) -> Option<u64> {
        let kwh = self.numbers[spot(self.numbers.len(), participant, month)?];
        (kwh <= MOST_KWH).then_some(kwh)
    }

    fn put(&mut self, participant: u32, month: u32, kwh: u64) -> Result<(), Refusal> {
        let spot = spot(self.numbers.len(), participant, month).ok_or(Refusal::NoPlace)?;
        if kwh > MOST_KWH {
            return Err(Refusal::NoPlace);
        }
        self.numbers[spot] = kwh;
        Ok(())
    }

    fn wipe(&mut self) {
        self.numbers.fill(NONE);
    }
}

/// Where the number of a pair stands in a run of this length, if the pair has a place.
fn spot(len: usize, participant: u32, month: u32) -> Option<usize>
    ensures { result ≡ spot_in len (participant, month) }
{
    let has_place = in_range(participant, month) && participant as usize <= len / 12;
    has_place.then(|| 12 * (participant as usize - 1) + (month as usize - 1))
}
