ghost use Rattle.std.specs.Prelude.{IfOk};
ghost use Rattle.desk.specs.Journals.{DeskPut, DeskWiped, HasRoom, desk_held, desk_place};
ghost use Rattle.desk.specs.declared.journal.DeskJournal.TheVariants.{Table, Entries};
ghost use Rattle.journals.specs.EntryLaws.{entries_held_within_limit_at_places_in_range};
ghost use Rattle.std.proofs.Common.{rules};

use entries::JournalKind;
use journals::{Entry, EntryJournal, Journal, Refusal, TableJournal};
use std::alloc::{AllocError, Global};

/// The journals that an entry can open a book over.
#[derive(Drop)]
pub enum DeskJournal {
    Table(TableJournal),
    Entries(EntryJournal),
}

impl DeskJournal {
    /// A journal of a kind, with the room that it names.
    pub fn new(alloc: Global, kind: JournalKind) -> Result<DeskJournal, AllocError>
        ensures { IfOk result (λ journal. HasRoom kind journal) }
    {
        Ok(match kind {
            JournalKind::Table(participants) => {
                let numbers = vec![in alloc; 0; 12 * usize::from(participants)]?;
                DeskJournal::Table(TableJournal::new(numbers))
            }
            JournalKind::Entries(records) => {
                let entries = vec![in alloc; Entry::UNUSED; records as usize]?;
                DeskJournal::Entries(EntryJournal::new(entries))
            }
        })
    }
}

impl Journal for DeskJournal {
    ghost held = { desk_held };

    ghost place = { desk_place };

    ghost put_leaves = { DeskPut };

    ghost wipe_leaves = { DeskWiped };

    ghost held_within_limit_at_places_in_range = { elim [
      | Table journal ↦ Prim.search rules
      | Entries journal ↦ entries_held_within_limit_at_places_in_range journal.entries.items
    ] };

    fn look(&self, participant: u32, month: u32) -> Option<u64> {
        match self {
            DeskJournal::Table(journal) => journal.look(participant, month),
            DeskJournal::Entries(journal) => journal.look(participant, month),
        }
    }

    fn put(&mut self, participant: u32, month: u32, kwh: u64) -> Result<(), Refusal> {
        match self {
            DeskJournal::Table(journal) => journal.put(participant, month, kwh),
            DeskJournal::Entries(journal) => journal.put(participant, month, kwh),
        }
    }

    fn wipe(&mut self) {
        match self {
            DeskJournal::Table(journal) => journal.wipe(),
            DeskJournal::Entries(journal) => journal.wipe(),
        }
    }
}
