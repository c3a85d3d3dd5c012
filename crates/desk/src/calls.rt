ghost use Rattle.std.specs.Prelude.{◌≡◌, IfOk, MatchResult, OnErr};
ghost use Rattle.desk.specs.Entries.{ClosesByQuarterRates, JournalLeft, Performs, called, closing};
ghost use Rattle.rates.specs.Named.{named_rates};
ghost use Rattle.settlement.specs.Outcomes.{Gives};
ghost use Rattle.book.specs.Views.{Leaves, places, view};

use answers::Answer;
use book::Book;
use entries::Entry;
use journals::Journal;
use rates::NamedList;
use settlement::Refusal;
use std::alloc::{AllocError, Global};

/// Closes the year by a list.
fn close<J: Journal>(book: &mut Book<J>, list: &NamedList) -> Result<Answer, Refusal>
    ensures outcome { Gives (closing (view J.held book.old) (named_rates list.now)) result (view J.held book.new) }
    ensures places { Leaves J.wipe_leaves book.old.journal result book.new.journal }
{
    book.close(list)?;
    Ok(Answer::Closed {
        year: book.standing().year,
    })
}

/// The call of an entry, once there is memory for the list that it names; without it nothing changes.
fn call<J: Journal>(
    alloc: Global,
    book: &mut Book<J>,
    entry: &Entry<'_>,
) -> Result<Result<Answer, Refusal>, AllocError>
    ensures outcome { MatchResult result (λ answer. Gives (called (view J.held book.old) (places J.place book.old) entry.now) answer (view J.held book.new)) (λ no_memory. book.new ≡ book.old) }
    ensures places { IfOk result (λ answer. JournalLeft J.put_leaves J.wipe_leaves entry.now answer book.old.journal book.new.journal) }
    ensures want_of_memory_comes_only_with_the_rates_of_a_quarter_list { OnErr result (ClosesByQuarterRates entry.now) }
{
    Ok(match entry {
        Entry::Open { .. } => Ok(Answer::Unread),
        Entry::File {
            project,
            requirement,
        } => book.file(*project, *requirement).and(Ok(Answer::Filed)),
        Entry::Post { forecast } => book.post(*forecast).map(Answer::Rate),
        Entry::Bill(r) => book.bill(r.participant, r.month, r.kwh).map(Answer::Charge),
        Entry::Resettle(r) => book
            .resettle(r.participant, r.month, r.kwh)
            .map(Answer::Change),
        Entry::Pay => book
            .pay()
            .map(|(change, till)| Answer::Paid { change, till }),
        Entry::State { project, actual } => book.state(*project, *actual).and(Ok(Answer::Stated)),
        Entry::Close(list) => close(book, &list.named(alloc)?),
        Entry::Look { project } => book.look(*project).map(Answer::Row),
    })
}

/// Performs an entry on the book that is open. An open begins another book, and changes nothing on
/// this one; nor does a close for whose list there is no memory.
pub fn perform<J: Journal>(
    alloc: Global,
    book: &mut Book<J>,
    entry: &Entry<'_>,
) -> Result<Answer, AllocError>
    ensures outcome { MatchResult result (λ answer. Performs (called (view J.held book.old) (places J.place book.old) entry.now) answer (view J.held book.new)) (λ no_memory. book.new ≡ book.old) }
    ensures places { IfOk result (λ answer. JournalLeft J.put_leaves J.wipe_leaves entry.now (called (view J.held book.old) (places J.place book.old) entry.now).answer book.old.journal book.new.journal) }
    ensures want_of_memory_comes_only_with_the_rates_of_a_quarter_list { OnErr result (ClosesByQuarterRates entry.now) }
{
    Ok(call(alloc, book, entry)?.unwrap_or_else(Answer::Refused))
}
