use book::Book;
use journals::Journal;
use rates::FlatList;
use settlement::Refusal;

/// A call on a book with its arguments.
#[derive(Clone, Copy)]
pub enum Call {
    /// Project and requirement.
    File(i64, i64),
    /// Forecast.
    Post(i64),
    /// Participant, month and kilowatt-hours.
    Bill(i64, i64, i64),
    /// Participant, month and kilowatt-hours.
    Resettle(i64, i64, i64),
    Pay,
    /// Project and actual.
    State(i64, i64),
    /// The rate of every month; above 100,000 no month has one.
    Close(u32),
    /// Project.
    Look(i64),
}

/// What a book answers.
#[derive(Clone, Copy, PartialEq, Eq, Debug)]
pub enum Answer {
    Done,
    /// A usage rate, a charge or its change, or what the row looked at is paid.
    Amount(i64),
    /// By how much the sum of paid has changed, and the till.
    Paid(i64, i64),
    /// The number of the refusal.
    Refused(u8),
}

impl Answer {
    fn done(outcome: Result<(), Refusal>) -> Answer {
        match outcome {
            Ok(()) => Answer::Done,
            Err(refusal) => Answer::Refused(refusal.number()),
        }
    }

    fn amount(outcome: Result<i64, Refusal>) -> Answer {
        match outcome {
            Ok(amount) => Answer::Amount(amount),
            Err(refusal) => Answer::Refused(refusal.number()),
        }
    }

    fn paid(outcome: Result<(i64, i64), Refusal>) -> Answer {
        match outcome {
            Ok((change, till)) => Answer::Paid(change, till),
            Err(refusal) => Answer::Refused(refusal.number()),
        }
    }
}

impl Call {
    /// Makes the call.
    pub fn on<J: Journal>(self, book: &mut Book<J>) -> Answer {
        match self {
            Call::File(project, requirement) => Answer::done(book.file(project, requirement)),
            Call::Post(forecast) => Answer::amount(book.post(forecast)),
            Call::Bill(participant, month, kwh) => {
                Answer::amount(book.bill(participant, month, kwh))
            }
            Call::Resettle(participant, month, kwh) => {
                Answer::amount(book.resettle(participant, month, kwh))
            }
            Call::Pay => Answer::paid(book.pay()),
            Call::State(project, actual) => Answer::done(book.state(project, actual)),
            Call::Close(rate) => Answer::done(book.close(&FlatList::new(rate))),
            Call::Look(project) => Answer::amount(paid_to(book, project)),
        }
    }
}

/// What a project is paid.
fn paid_to<J: Journal>(book: &Book<J>, project: i64) -> Result<i64, Refusal> {
    Ok(book.look(project)?.paid)
}
