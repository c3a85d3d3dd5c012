ghost use Rattle.std.specs.Prelude.{◌≡◌, ◌≤◌};
ghost use Rattle.page_text.specs.Lines.{refusal_fields, refusal_text};
ghost use Rattle.page_text.specs.Outcomes.{Gives, printed};
ghost use Rattle.page_text.specs.ReadBack.{RefusalReadsBack};

use crate::field::Field;
use crate::line::write_line;
use crate::page::LONGEST_TEXT;

/// The fields after the letter: the line's number in 11 columns, the refusal's in 12.
fn refusal_fields(line: u16, number: u8) -> [Field; 2]
    ensures { result ≡ refusal_fields line number }
{
    [
        Field::in_columns::<11>(i64::from(line)),
        Field::in_columns::<12>(i64::from(number)),
    ]
}

/// Writes the line of a refusal at the start of the run; answers how long it is.
// By its number: the line holds numbers, and any library's refusal can be printed.
// It answers a length, by `Gives (printed ..)`: the run is the caller's fixed memory.
pub fn write_refusal(run: &mut [u8; LONGEST_TEXT], line: u16, number: u8) -> usize
    ensures outcome { Gives (printed (refusal_text line number) run.old) result run.new }
    ensures reads_back { RefusalReadsBack line number run.new }
    ensures one_line { result ≡ 25 }
{
    run[0] = b'R';
    1 + write_line(&mut run[1..], &refusal_fields(line, number))
}
