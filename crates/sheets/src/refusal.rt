ghost use Rattle.std.specs.Prelude.{◌≡◌};
ghost use Rattle.sheets.specs.Refusals.{number_of};

use std::error::Error;
use std::fmt;

/// Why a call on a sheet was refused.
#[derive(Clone, Copy, PartialEq, Eq, Debug)]
pub enum Refusal {
    UnknownLine = 21,
    AmountOutOfRange = 22,
    LineMissing = 23,
    BaseNotAboveZero = 24,
    AdjustedOmOutOfRange = 25,
    FactorOutOfRange = 26,
    ProjectOutOfRange = 27,
    RequirementOutOfRange = 28,
}

impl Refusal {
    /// The number of the question that was answered with no.
    pub fn number(self) -> u8
        ensures { result ≡ number_of self }
    {
        self as u8
    }
}

/// What was wrong, for a person.
impl fmt::Display for Refusal {
    ghost use Rattle.std.specs.Prelude.{Some};
    ghost use Rattle.sheets.specs.Refusals.{sentence_of};

    ghost output = { λ refusal. Some (sentence_of refusal) };

    fn fmt<W: fmt::Write>(&self, f: &mut fmt::Formatter<W>) -> fmt::Result {
        f.write_str(match self {
            Refusal::UnknownLine => "the template has no line with this label",
            Refusal::AmountOutOfRange => {
                "an amount is 0 to 10,000,000,000, on line 10 also down to -10,000,000,000"
            }
            Refusal::LineMissing => "a line of the template has no amount yet",
            Refusal::BaseNotAboveZero => "a base that is divided by is not above 0",
            Refusal::AdjustedOmOutOfRange => "line 3d is not from 0 to line 3",
            Refusal::FactorOutOfRange => "a factor is beyond 1,000 percent",
            Refusal::ProjectOutOfRange => "the project's plant or depreciation is out of range",
            Refusal::RequirementOutOfRange => {
                "the annual revenue requirement is not 0 to 100,000,000"
            }
        })
    }
}

impl Error for Refusal {}
