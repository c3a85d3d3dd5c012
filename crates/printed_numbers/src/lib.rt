//! Amounts, factors, column numbers and the letters of sub-rows, as a person reads them.
#![tactic(auto)]

ghost use Rattle.std.specs.Prelude.{◌≡◌, ◌+◌, ◌%◌};

use std::fmt;
use std::fmt::{Display, InlineText};

// The size of each `InlineText` below is that of the longest text of its type.

/// The digits of an amount, at most 39, with a comma between groups of three.
#[derive(Clone, Copy)]
struct Grouped(u128);

impl Display for Grouped {
    fn fmt<W: fmt::Write>(&self, f: &mut fmt::Formatter<W>) -> fmt::Result {
        let digits = InlineText::<39>::of(self.0);
        let groups = digits.as_str().as_bytes().rchunks(3).rev();
        f.write_joined(groups.map(|group| str::from_utf8(group).unwrap_or("")), ",")
    }
}

/// An amount with its thousands separated.
#[derive(Clone, Copy)]
pub struct Thousands(pub i128);

impl Display for Thousands {
    fn fmt<W: fmt::Write>(&self, f: &mut fmt::Formatter<W>) -> fmt::Result {
        let digits = InlineText::<51>::of(Grouped(self.0.unsigned_abs()));
        f.pad_integral(self.0 >= 0, "", digits.as_str())
    }
}

/// A factor in hundredths of a percent, as a percentage.
#[derive(Clone, Copy)]
pub struct Percent(pub i64);

impl Display for Percent {
    fn fmt<W: fmt::Write>(&self, f: &mut fmt::Formatter<W>) -> fmt::Result {
        let size = self.0.unsigned_abs();
        let digits = InlineText::<22>::of(format_args!("{}.{:02}%", size / 100, size % 100));
        f.pad_integral(self.0 >= 0, "", digits.as_str())
    }
}

/// The number of a column, in brackets.
#[derive(Clone, Copy)]
pub struct ColumnNumber(pub usize);

impl Display for ColumnNumber {
    fn fmt<W: fmt::Write>(&self, f: &mut fmt::Formatter<W>) -> fmt::Result {
        f.pad(InlineText::<22>::of(format_args!("({})", self.0)).as_str())
    }
}

/// The letters of a project's sub-row of line 1, by its place: a to z, then aa, ab and so on.
#[derive(Clone, Copy)]
pub struct SubRow(pub usize);

impl SubRow {
    ghost use Rattle.std.specs.Prelude.{◌≡◌, ◌<◌, IfSome};
    ghost use Rattle.printed_numbers.specs.SubRows.{IsLetter, place_of};

    /// Its letters, the first of them only where there are two. No two of the first 702 have the same.
    pub fn letters(self) -> (Option<char>, char)
        ensures read_back_as_the_place { self.0 < 702 → place_of result.0 result.1 ≡ self.0 }
        ensures first_is_a_to_z { IfSome result.0 (λ first. IsLetter first) }
        ensures last_is_a_to_z { IsLetter result.1 }
    {
        match self.0.checked_sub(26) {
            None => (None, letter(self.0)),
            Some(beyond) => (Some(letter(beyond / 26)), letter(beyond)),
        }
    }
}

impl Display for SubRow {
    fn fmt<W: fmt::Write>(&self, f: &mut fmt::Formatter<W>) -> fmt::Result {
        let letters = match self.letters() {
            (None, last) => InlineText::<2>::of(last),
            (Some(first), last) => InlineText::of(format_args!("{first}{last}")),
        };
        f.pad(letters.as_str())
    }
}

/// The letter at a place of the alphabet, which begins again behind z.
fn letter(place: usize) -> char
    ensures counts_from_a { result ≡ 97 + place % 26 }
{
    char::from(b'a' + (place % 26) as u8)
}
