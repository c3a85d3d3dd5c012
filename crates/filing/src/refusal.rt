ghost use Rattle.std.specs.Prelude.{◌≡◌};
ghost use Rattle.filing.specs.Lines.{at_line};
ghost use Rattle.filing.specs.Refusals.{number_of};
ghost use Rattle.filing.specs.declared.refusal.Refusal.TheVariants.{MalformedField, Sheet};

use sheets::{OpenSheet, Template};
use std::error::Error;
use std::fmt;

/// Why a filing was refused.
#[derive(Clone, Copy, PartialEq, Eq, Debug)]
pub enum Refusal {
    /// The project number is not 1 to 99,999,999.
    ProjectNumberOutOfRange,
    /// The file has more than 65,536 bytes.
    FileTooLong,
    /// Not 56 bytes that are no newline, with a newline behind them.
    NotALine,
    /// No line of this letter belongs here.
    LetterOutOfPlace,
    /// No template has this name.
    UnknownTemplate,
    /// A field is not filled and right-justified, or another column is no space.
    MalformedField,
    /// The 65th project.
    TooManyProjects,
    /// The file ends before its first project.
    NoProject,
    /// The sheet refuses a figure, page 1 or a project.
    Sheet(sheets::Refusal),
}

impl Refusal {
    /// The number of the question that was answered with no.
    pub fn number(self) -> u8
        ensures { result ≡ number_of self }
    {
        // no discriminants: some refusals share a number, and the sheet's have their own
        match self {
            Refusal::ProjectNumberOutOfRange => 1,
            Refusal::FileTooLong | Refusal::NotALine => 29,
            Refusal::LetterOutOfPlace | Refusal::UnknownTemplate => 30,
            Refusal::MalformedField => 31,
            Refusal::TooManyProjects | Refusal::NoProject => 32,
            Refusal::Sheet(refusal) => refusal.number(),
        }
    }

    /// The refusal of this line.
    pub(crate) fn at_line(self, line: u16) -> LineRefusal
        ensures { result ≡ at_line line self }
    {
        LineRefusal {
            line,
            refusal: self,
        }
    }
}

impl From<sheets::Refusal> for Refusal {
    ghost from_gives = { λ why e. e ≡ Sheet why };

    fn from(why: sheets::Refusal) -> Refusal {
        Refusal::Sheet(why)
    }
}

// a sheet whose page 1 is refused comes back beside the refusal
impl<T: Template> From<(sheets::Refusal, OpenSheet<T>)> for Refusal {
    ghost from_gives = { λ refused e. e ≡ Sheet refused.0 };

    fn from(refused: (sheets::Refusal, OpenSheet<T>)) -> Refusal {
        Refusal::Sheet(refused.0)
    }
}

impl From<columns::Refusal> for Refusal {
    ghost from_gives = { λ _ e. e ≡ MalformedField };

    fn from(_why: columns::Refusal) -> Refusal {
        Refusal::MalformedField
    }
}

/// What was wrong, for a person; a sheet's refusal says it itself.
impl fmt::Display for Refusal {
    ghost use Rattle.std.specs.Prelude.{Some};
    ghost use Rattle.filing.specs.Refusals.{sentence_of};

    ghost output = { λ refusal. Some (sentence_of refusal) };

    fn fmt<W: fmt::Write>(&self, f: &mut fmt::Formatter<W>) -> fmt::Result {
        f.write_str(match self {
            Refusal::ProjectNumberOutOfRange => "a project number is 1 to 99,999,999",
            Refusal::FileTooLong => "a filing has at most 65,536 bytes",
            Refusal::NotALine => "a line has 56 bytes and then a newline",
            Refusal::LetterOutOfPlace => "a T line comes first, then F lines, then P lines",
            Refusal::UnknownTemplate => "columns 2-4 of the T line hold MM or CC",
            Refusal::MalformedField =>
                "a field is empty, is no number or ends before its last column, or something stands beside the fields",
            Refusal::TooManyProjects => "a filing has at most 64 projects",
            Refusal::NoProject => "a filing has at least one project",
            Refusal::Sheet(refusal) => return refusal.fmt(f),
        })
    }
}

impl Error for Refusal {}

/// A refusal, and the number of the line that it is about, from 1.
#[derive(Clone, Copy, PartialEq, Eq, Debug)]
pub struct LineRefusal {
    pub line: u16,
    pub refusal: Refusal,
}
