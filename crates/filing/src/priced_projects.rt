ghost use Rattle.std.specs.Prelude.{◌≤◌, length, pos, ◌≤ℤ◌};
ghost use Rattle.rows.specs.Rows.{rows_in};
ghost use Rattle.sheets.specs.Pricing.{ColumnsInRange};

use rows::Rows;
use sheets::{Columns, Project};

/// The most projects of a filing.
const MOST: usize = 64;

/// A project of a filing with its columns of page 2.
#[derive(Clone, Copy)]
pub struct PricedProject {
    pub number: i64,
    pub project: Project,
    pub columns: Columns,
    ghost number_in_range: { (pos 1 ≤ℤ number) × (number ≤ℤ pos 99999999) },
    ghost columns_in_range: { ColumnsInRange columns },
}

/// The projects of a filing in the order of its lines: 1 to 64 of them.
// No model: its view would forget the places not in use, and a type is then not `Copy`, as callers may use this one.
#[derive(Clone, Copy)]
pub struct PricedProjects {
    rows: Rows<PricedProject, MOST>,
    ghost some: { 1 ≤ length (rows_in rows) },
}

impl PricedProjects {
    ghost use Rattle.std.specs.Prelude.{◌≡◌, ◌<◌, ◌↔◌, [], ◌∷◌, ◌++◌, map, IsTrue};
    ghost use Rattle.filing.specs.Rows.{row_of, rows_of};

    /// One project.
    pub(crate) fn of(first: PricedProject) -> PricedProjects
        ensures { rows_of result ≡ row_of first ∷ [] }
    {
        let mut rows = Rows::new(first);
        rows.push(first).unwrap();
        PricedProjects { rows }
    }

    /// Whether there are as many projects as there can be.
    // A question of its own: one project too many is refused before it is priced.
    pub(crate) fn is_full(&self) -> bool
        ensures { IsTrue result ↔ (64 ≤ length (rows_of self.now)) }
    {
        self.rows.is_full()
    }

    /// Adds a project after the others.
    pub(crate) fn push(&mut self, project: PricedProject)
        requires { length (rows_of self.old) < 64 }
        ensures { rows_of self.new ≡ rows_of self.old ++ (row_of project ∷ []) }
    {
        self.rows.push(project).unwrap();
    }

    /// The projects.
    pub fn as_slice(&self) -> &[PricedProject]
        ensures rows { map row_of result.now ≡ rows_of self.now }
        ensures at_most_64_projects { length result.now ≤ 64 }
    {
        self.rows.as_slice()
    }
}
