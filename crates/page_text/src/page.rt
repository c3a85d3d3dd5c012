ghost use Rattle.std.specs.Prelude.{◌≡◌, ◌+◌, ◌*◌, ◌≤◌, length};
ghost use Rattle.page_text.specs.Lines.{page_text};
ghost use Rattle.page_text.specs.Outcomes.{Gives, printed};
ghost use Rattle.page_text.specs.ReadBack.{PageReadsBack};

use crate::line::write_sums;
use crate::page_rows::PageRows;
use crate::written::write_all;

/// The bytes of the longest text: 64 rows and the line of the sums, of 69 bytes each.
pub const LONGEST_TEXT: usize = 4_485;

/// Writes the text of the pages at the start of the run; answers how long it is.
// It answers a length, by `Gives (printed ..)`: the run is the caller's fixed memory.
#[tactic(auto, using(crate::proofs::Pages::page_steps))]
pub fn write_rows(run: &mut [u8; LONGEST_TEXT], rows: &PageRows) -> usize
    ensures outcome { Gives (printed (page_text rows.now) run.old) result run.new }
    ensures reads_back { PageReadsBack rows.now run.new }
    ensures whole_lines { result ≡ 69 * (length rows.now + 1) }
    ensures within_the_run { result ≤ 4485 }
{
    let end = write_all(run, rows.as_slice());
    end + write_sums(&mut run[end..], rows)
}
