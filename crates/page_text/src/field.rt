ghost use Rattle.std.specs.Prelude.{◌-◌, ◌^◌, ◌<◌, ◌≤◌, unsigned_abs};
ghost use Rattle.page_text.specs.Fields.{PageField, field_text};

use crate::written::Written;
use columns::write_number;
use std::marker::Model;

/// A number in its columns, with room for its digits and a minus sign.
#[derive(Drop)]
pub(crate) struct Field {
    columns: usize,
    number: i64,
}

impl Model for Field {
    ghost Value = { PageField };

    ghost view = { λ f. record { columns = f.columns; number = f.number } };

    ghost invariant = { λ f. (2 ≤ f.columns) × (unsigned_abs f.number < 10 ^ (f.columns - 1)) };
}

impl Field {
    ghost use Rattle.std.specs.Prelude.{◌≡◌};
    ghost use Rattle.page_text.specs.Lines.{in_columns};

    /// A number in its columns.
    pub(crate) fn in_columns<const COLUMNS: usize>(number: i64) -> Self
        requires wide { 2 ≤ COLUMNS }
        requires fits { unsigned_abs number < 10 ^ (COLUMNS - 1) }
        ensures { result ≡ in_columns COLUMNS number }
    {
        Field {
            columns: COLUMNS,
            number,
        }
    }
}

impl Written for Field {
    ghost text = { field_text };

    ghost width = { λ f. f.columns };

    fn write(&self, bytes: &mut [u8]) -> usize {
        write_number(&mut bytes[..self.columns], i128::from(self.number)).unwrap();
        self.columns
    }
}
