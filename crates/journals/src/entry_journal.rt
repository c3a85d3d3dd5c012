ghost use Rattle.std.specs.Prelude.{◌≡◌, vec_items};
ghost use Rattle.journals.specs.Entries.{used, unused, is_of, held_among, places_among, spot_among, SpotFor, entries_held, entries_place, EntryPut, EntriesWiped};
ghost use Rattle.std.specs.List.{position};
ghost use Rattle.journals.specs.EntryLaws.{entries_held_within_limit_at_places_in_range};

use crate::journal::{Journal, MOST_KWH, in_range};
use crate::refusal::Refusal;

/// An entry of a run: the kilowatt-hours of a participant and a month. One that could not be held is
/// unused.
#[derive(Clone, Copy)]
pub struct Entry {
    pub participant: u32,
    pub month: u8,
    pub kwh: u64,
}

impl Entry {
    /// An unused entry.
    pub const UNUSED: Entry = Entry {
        participant: 0,
        month: 0,
        kwh: 0,
    };

    fn is_used(&self) -> bool
        ensures { result ≡ used self.now }
    {
        in_range(self.participant, u32::from(self.month)) && self.kwh <= MOST_KWH
    }

    fn is_of(&self, participant: u32, month: u32) -> bool
        ensures { result ≡ is_of (participant, month) self.now }
    {
        self.participant == participant && u32::from(self.month) == month && self.is_used()
    }
}

/// The entry journal: a run of entries in any order.
#[derive(Drop)]
pub struct EntryJournal {
    entries: Vec<Entry>,
}

impl EntryJournal {
    /// The journal over a run, which holds what stands there: of a pair's used entries the first counts.
    pub fn new(entries: Vec<Entry>) -> EntryJournal
        ensures holds_what_stands_in_the_run { entries_held result ≡ held_among entries.items }
        ensures places { entries_place result ≡ places_among entries.items }
        ensures run { vec_items result.entries ≡ entries.items }
    {
        EntryJournal { entries }
    }

    /// Where a put of this number writes, if it is accepted.
    fn spot_for(&self, participant: u32, month: u32, kwh: u64) -> Option<usize>
        ensures { SpotFor (vec_items self.now.entries) (participant, month) kwh result }
    {
        if !in_range(participant, month) || kwh > MOST_KWH {
            return None;
        }
        self.spot(participant, month)
    }

    /// Where a pair in range is written: at its first entry, or else at the first unused one.
    fn spot(&self, participant: u32, month: u32) -> Option<usize>
        ensures { result ≡ spot_among (vec_items self.now.entries) (participant, month) }
    {
        self.first_of(participant, month)
            .or_else(|| self.first_unused())
    }

    /// The first entry of the pair.
    fn first_of(&self, participant: u32, month: u32) -> Option<usize>
        ensures { result ≡ position (is_of (participant, month)) (vec_items self.now.entries) }
    {
        self.entries
            .iter()
            .position(|entry| entry.is_of(participant, month))
    }

    /// The first unused entry.
    fn first_unused(&self) -> Option<usize>
        ensures { result ≡ position unused (vec_items self.now.entries) }
    {
        self.entries.iter().position(|entry| !entry.is_used())
    }
}

impl Journal for EntryJournal {
    ghost held = { entries_held };

    ghost place = { entries_place };

    ghost put_leaves = { EntryPut };

    ghost wipe_leaves = { EntriesWiped };

    ghost held_within_limit_at_places_in_range = { λ j. entries_held_within_limit_at_places_in_range (vec_items j.entries) };

    fn look(&self, participant: u32, month: u32) -> Option<u64> {
        self.entries
            .iter()
            .find(|entry| entry.is_of(participant, month))
            .map(|entry| entry.kwh)
    }

    fn put(&mut self, participant: u32, month: u32, kwh: u64) -> Result<(), Refusal> {
        let Some(spot) = self.spot_for(participant, month, kwh) else {
            return Err(Refusal::NoPlace);
        };
        self.entries[spot] = Entry {
            participant,
            month: month as u8,
            kwh,
        };
        Ok(())
    }

    #[tactic(auto, using(crate::proofs::Entries::blanks_hold_nothing))]
    fn wipe(&mut self) {
        self.entries.fill(Entry::UNUSED);
    }
}
