ghost use Rattle.std.specs.Prelude.{◌≡◌, ⊤};
ghost use Rattle.journals.specs.Journal.{Pair, Held, in_range as is_in_range};
ghost use Rattle.journals.specs.Calls.{Places, HeldWithinLimitAtPlacesInRange, Puts, PutThenLook, NothingHeld};

use crate::refusal::Refusal;

/// The most kilowatt-hours that are held under a pair.
pub const MOST_KWH: u64 = 10_000_000_000;

/// A journal: for each pair of a participant and a month the kilowatt-hours that it holds, or none.
pub trait Journal {
    // the number held under each pair, if there is one
    ghost held: { Self → Held };

    // which pairs have a place
    ghost place: { Self → Places };

    // what an accepted put under a pair does to the places; by default nothing is said
    ghost put_leaves: { Self → Pair → Self → Type 0 } = { λ _ _ _. ⊤ };

    // what a wipe does to the places; by default nothing is said
    ghost wipe_leaves: { Self → Self → Type 0 } = { λ _ _. ⊤ };

    /// The kilowatt-hours held under a participant and a month.
    fn look(&self, participant: u32, month: u32) -> Option<u64>
        ensures { result ≡ held self.now (participant, month) };

    /// Holds the kilowatt-hours under a pair that has a place, in place of what it held.
    fn put(&mut self, participant: u32, month: u32, kwh: u64) -> Result<(), Refusal>
        ensures held_if_accepted_else_unchanged { Puts held place put_leaves self.old (participant, month) kwh result self.new }
        ensures look_then_answers_what_was_put { PutThenLook (held self.old) (participant, month) kwh result (held self.new) };

    /// Holds nothing any more.
    fn wipe(&mut self)
        ensures nothing_held { NothingHeld (held self.new) }
        ensures places { wipe_leaves self.old self.new };

    // what every journal keeps
    ghost held_within_limit_at_places_in_range: { (journal : Self) → HeldWithinLimitAtPlacesInRange (held journal) (place journal) };
}

/// Whether a journal may have a place for a pair.
pub(crate) fn in_range(participant: u32, month: u32) -> bool
    ensures { result ≡ is_in_range (participant, month) }
{
    (1..=65_535).contains(&participant) && (1..=12).contains(&month)
}
