ghost use Rattle.std.specs.Prelude.{◌≡◌};
ghost use Rattle.journals.specs.Refusals.{number_of};

use std::error::Error;
use std::fmt;

/// Why a put was refused, with the number of its question.
#[derive(Clone, Copy, PartialEq, Eq, Debug)]
pub enum Refusal {
    NoPlace = 12,
}

impl Refusal {
    /// The number of the question that was answered with no.
    pub fn number(self) -> u8
        ensures { result ≡ number_of self }
    {
        self as u8
    }
}

impl fmt::Display for Refusal {
    ghost use Rattle.std.specs.Prelude.{Some};
    ghost use Rattle.journals.specs.Refusals.{sentence_of};

    ghost output = { λ refusal. Some (sentence_of refusal) };

    fn fmt<W: fmt::Write>(&self, f: &mut fmt::Formatter<W>) -> fmt::Result {
        f.write_str(match self {
            Refusal::NoPlace =>
                "the journal has no place for this participant and month, or the kilowatt-hours are above 10,000,000,000",
        })
    }
}

impl Error for Refusal {}
