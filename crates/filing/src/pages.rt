use crate::fields::read_project;
use crate::priced_projects::PricedProjects;
use crate::reader::Record;
use crate::refusal::Refusal;
use crate::sheet_lines::{finish, price};
use sheets::{OpenSheet, Template, WorkedSheet};
use std::marker::Model;

pub(crate) mod calls;

/// Both pages of a filing: the sheet whose page 1 is worked out, and the projects priced on it.
#[derive(Drop)]
pub struct Pages<T: Template> {
    sheet: WorkedSheet<T>,
    projects: PricedProjects,
}

impl<T: Template> Model for Pages<T> {
    ghost use Rattle.filing.specs.Filed.{Filed, filed_as};
    ghost use Rattle.filing.specs.Rows.{rows_of};

    ghost Value = { Filed };

    ghost view = { λ p. filed_as p.sheet.figures p.sheet.factors (rows_of p.projects) };

    ghost use Rattle.std.specs.List.{All};
    ghost use Rattle.filing.specs.Filed.{IsPricedOn};

    ghost invariant = { λ p. All (IsPricedOn T.rules p.sheet.factors) (rows_of p.projects) };
}

impl<T: Template> Pages<T> {
    ghost use Rattle.std.specs.Prelude.{◌≡◌};
    ghost use Rattle.std.specs.List.{All};
    ghost use Rattle.filing.specs.Filed.{IsPricedOn, Leaves, by_letter, entering, pricing, project_taken, seen, worked_on};
    ghost use Rattle.filing.specs.Rows.{rows_of};

    /// The sheet whose page 1 is worked out.
    pub fn sheet(&self) -> &WorkedSheet<T>
        ensures sheet_is_that_of_the_filing { result.now ≡ worked_on self.now }
    {
        &self.sheet
    }

    /// The projects of page 2, 1 to 64 of them, each priced on this filing's own sheet.
    pub fn projects(&self) -> &PricedProjects
        ensures rows_are_those_of_the_filing { rows_of result.now ≡ self.now.rows }
        ensures each_row_is_priced_on_the_filings_own_factors { All (IsPricedOn T.rules self.now.factors) self.now.rows }
    {
        &self.projects
    }

    /// Finishes page 1 at the first P line, and prices its project.
    fn open(sheet: OpenSheet<T>, line: &[u8; 56]) -> Result<Pages<T>, Refusal>
        ensures { seen pricing result ≡ project_taken T.rules (entering sheet) line.now }
    {
        let filed = read_project(line)?;
        let sheet = finish(sheet)?;
        let first = price(&sheet, filed)?;
        Ok(Pages {
            sheet,
            projects: PricedProjects::of(first),
        })
    }

    /// Adds the project of a P line.
    fn add(&mut self, line: &[u8; 56]) -> Result<(), Refusal>
        ensures { Leaves (project_taken T.rules (pricing self.old) line.now) (pricing self.old) result (pricing self.new) }
    {
        let filed = read_project(line)?;
        if self.projects.is_full() {
            return Err(Refusal::TooManyProjects);
        }
        self.projects.push(price(&self.sheet, filed)?);
        Ok(())
    }

    /// Takes a line after the first P line.
    fn take(&mut self, line: Record) -> Result<(), Refusal>
        ensures { Leaves (by_letter T.rules (pricing self.old) line.entry.letter line.entry.bytes.now) (pricing self.old) result (pricing self.new) }
    {
        match line.letter {
            'P' => self.add(line.bytes),
            _ => Err(Refusal::LetterOutOfPlace),
        }
    }
}
