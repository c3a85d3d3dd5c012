ghost use Rattle.std.specs.Prelude.{◌≡◌};
ghost use Rattle.settlement.specs.declared.refusal.Refusal.TheVariants.{NoPlace};
ghost use Rattle.settlement.specs.Refusals.{number_of};

use std::error::Error;
use std::fmt;

/// Why a call on a book was refused: each case with the number of its question.
#[derive(Clone, Copy, PartialEq, Eq, Debug)]
pub enum Refusal {
    ProjectNumberOutOfRange = 1,
    NotDraft = 2,
    NoRoomForARow = 3,
    RequirementOutOfRange = 4,
    NotFiled = 5,
    ForecastOutOfRange = 6,
    UsageRateOutOfRange = 7,
    ReadingOutOfRange = 8,
    NotPosted = 9,
    AlreadyHeld = 10,
    MoneyOutOfRange = 11,
    NoPlace = 12,
    NotHeld = 13,
    NoRow = 14,
    ActualOutOfRange = 15,
    NotStated = 16,
    NotPaid = 17,
    LastYear = 18,
    RateMissing = 19,
    TrueUpOutOfRange = 20,
}

impl Refusal {
    /// The number of the question that was answered with no.
    pub fn number(self) -> u8
        ensures { result ≡ number_of self }
    {
        self as u8
    }
}

// a book puts only numbers that can be held, so its journal refuses one only for want of a place
impl From<journals::Refusal> for Refusal {
    ghost from_gives = { λ _ refusal. refusal ≡ NoPlace };

    fn from(_why: journals::Refusal) -> Refusal {
        Refusal::NoPlace
    }
}

impl fmt::Display for Refusal {
    ghost use Rattle.std.specs.Prelude.{Some};
    ghost use Rattle.settlement.specs.Refusals.{sentence_of};

    ghost output = { λ refusal. Some (sentence_of refusal) };

    fn fmt<W: fmt::Write>(&self, f: &mut fmt::Formatter<W>) -> fmt::Result {
        f.write_str(match self {
            Refusal::ProjectNumberOutOfRange => "the project number is not 1 to 99,999,999",
            Refusal::NotDraft => "the year is not a draft",
            Refusal::NoRoomForARow => "the project has no row, and there are 64 rows already",
            Refusal::RequirementOutOfRange =>
                "the requirement or column 16 is not 0 to 100,000,000 dollars",
            Refusal::NotFiled => "there is no row, or a row has no requirement for this year",
            Refusal::ForecastOutOfRange => "the forecast is not 1 to 1,000,000,000 megawatt-hours",
            Refusal::UsageRateOutOfRange =>
                "the usage rate is not 1 to 1,000,000 ten-thousandths of a dollar",
            Refusal::ReadingOutOfRange =>
                "the participant, the month or the kilowatt-hours are outside their ranges",
            Refusal::NotPosted => "the year is not posted",
            Refusal::AlreadyHeld =>
                "kilowatt-hours are held for this participant and month already",
            Refusal::MoneyOutOfRange => "the money afterwards is not 0 to 90,000,000,000 cents",
            Refusal::NoPlace => "the journal has no place for this participant and month",
            Refusal::NotHeld => "nothing is held for this participant and month",
            Refusal::NoRow => "the project has no row",
            Refusal::ActualOutOfRange => "the actual is not 0 to 100,000,000 dollars",
            Refusal::NotStated => "a row has no actual for this year",
            Refusal::NotPaid => "a row has not been paid its share",
            Refusal::LastYear => "the year is 65,535, the last one",
            Refusal::RateMissing => "one of the 24 months from January of the year on has no rate",
            Refusal::TrueUpOutOfRange => "a true-up is not within 100,000,000 dollars either way",
        })
    }
}

impl Error for Refusal {}
