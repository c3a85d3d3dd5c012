ghost use Rattle.std.specs.Prelude.{◌≡◌};
ghost use Rattle.columns.specs.Refusals.{number_of};

use std::error::Error;
use std::fmt;

/// Why a number was not read or not written.
#[derive(Clone, Copy, PartialEq, Eq, Debug)]
pub enum Refusal {
    /// The columns hold no number of 128 bits.
    NotANumber,
    /// The number has more characters than there are columns.
    TooWide,
}

impl Refusal {
    /// The number of the question that was answered with no.
    pub fn number(self) -> u8
        ensures { result ≡ number_of self }
    {
        // no discriminants: the two share a number
        match self {
            Refusal::NotANumber | Refusal::TooWide => 31,
        }
    }
}

impl fmt::Display for Refusal {
    ghost use Rattle.std.specs.Prelude.{Some};
    ghost use Rattle.columns.specs.Refusals.{sentence_of};

    ghost output = { λ refusal. Some (sentence_of refusal) };

    fn fmt<W: fmt::Write>(&self, f: &mut fmt::Formatter<W>) -> fmt::Result {
        f.write_str(match self {
            Refusal::NotANumber => "the columns hold no number of 128 bits",
            Refusal::TooWide => "the number is too wide for its columns",
        })
    }
}

impl Error for Refusal {}
