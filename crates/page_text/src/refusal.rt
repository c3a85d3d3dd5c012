ghost use Rattle.std.specs.Prelude.{◌≡◌};
ghost use Rattle.page_text.specs.Refusals.{number_of};

use std::error::Error;
use std::fmt;

/// Why a row was not added.
#[derive(Clone, Copy, PartialEq, Eq, Debug)]
pub enum Refusal {
    /// The 65th project.
    TooManyProjects,
}

impl Refusal {
    /// The number of the question that was answered with no: 32.
    pub fn number(self) -> u8
        ensures { result ≡ number_of self }
    {
        match self {
            Refusal::TooManyProjects => 32,
        }
    }
}

impl fmt::Display for Refusal {
    ghost use Rattle.std.specs.Prelude.{Some};
    ghost use Rattle.page_text.specs.Refusals.{sentence_of};

    ghost output = { λ refusal. Some (sentence_of refusal) };

    fn fmt<W: fmt::Write>(&self, f: &mut fmt::Formatter<W>) -> fmt::Result {
        f.write_str(match self {
            Refusal::TooManyProjects => "the pages have at most 64 projects",
        })
    }
}

impl Error for Refusal {}
