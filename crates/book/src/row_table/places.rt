ghost use Rattle.std.specs.List.{position};
ghost use Rattle.std.specs.Prelude.{◌≡◌, ◌<◌, ◌≤◌, length, nat_lt};
ghost use Rattle.settlement.specs.Books.{has_row, row_on};
ghost use Rattle.settlement.specs.Drafting.{has_room};
ghost use Rattle.settlement.specs.Outcomes.{is_project};
ghost use Rattle.settlement.specs.Rules.{unsigned};
ghost use Rattle.settlement.specs.declared.refusal.Refusal.TheVariants.{NoRoomForARow, NoRow, ProjectNumberOutOfRange};
ghost use Rattle.book.specs.Asking.{Asks};
ghost use Rattle.book.specs.Tables.{StandsAt, with_the_rows, written};

use crate::row::Row;
use crate::row_table::{MOST_ROWS, RowTable};
use settlement::Refusal;

/// A project number, or question 1.
pub(crate) fn project_number(project: i64) -> Result<u32, Refusal>
    ensures { Asks (is_project project) ProjectNumberOutOfRange (λ number. number ≡ unsigned project) result }
{
    if !(1..=99_999_999).contains(&project) {
        return Err(Refusal::ProjectNumberOutOfRange);
    }
    Ok(project as u32)
}

impl RowTable {
    ghost use Rattle.std.specs.Prelude.{◌==◌};

    /// The first place at which the project's number is met.
    fn first_place(&self, project: u32) -> Option<usize>
        ensures { result ≡ position (λ r. r.project == project) self.now.rows }
    {
        self.in_use()
            .iter()
            .position(|row| row.project() == project)
    }

    /// Where the project's row stands, and the row; for a project without one, the place after the
    /// others and the row that it would get.
    #[tactic(auto, using(crate::proofs::Places::found, crate::proofs::Places::not_found))]
    fn row_of(&self, project: u32) -> (usize, Row)
        ensures stands { StandsAt project self.now.rows result.0 result.1 }
        ensures room { has_room project self.now.rows ≡ nat_lt result.0 64 }
    {
        let rows = self.in_use();
        match self.first_place(project) {
            Some(place) => (place, rows[place]),
            None => (rows.len(), Row::new(project)),
        }
    }

    /// Writes a row at a place in use, or after the others.
    #[tactic(auto, using(crate::proofs::Places::written_over))]
    pub(crate) fn write(&mut self, place: usize, row: Row)
        requires place { place ≤ length self.old.rows }
        requires room { place < 64 }
        ensures { self.new ≡ with_the_rows (written place row self.old.rows) self.old }
    {
        self.rows[place] = row;
        if place == self.count {
            self.count += 1;
        }
    }

    /// Where the project's row stands, and the row; or question 3.
    pub(crate) fn row_or_room(&self, project: u32) -> Result<(usize, Row), Refusal>
        ensures { Asks (has_room project self.now.rows) NoRoomForARow (λ at. (at.1 ≡ row_on project self.now.rows) × (at.0 < 64) × StandsAt project self.now.rows at.0 at.1) result }
    {
        let (place, row) = self.row_of(project);
        if place >= MOST_ROWS {
            return Err(Refusal::NoRoomForARow);
        }
        Ok((place, row))
    }

    /// Where the project's row stands, and the row; or question 14.
    pub(crate) fn row_there(&self, project: u32) -> Result<(usize, Row), Refusal>
        ensures { Asks (has_row project self.now.rows) NoRow (λ at. (at.1 ≡ row_on project self.now.rows) × (at.0 < 64) × StandsAt project self.now.rows at.0 at.1) result }
    {
        let (place, row) = self.row_of(project);
        if place >= self.count {
            return Err(Refusal::NoRow);
        }
        Ok((place, row))
    }
}
