ghost use Rattle.columns.specs.Fields.{Gives, text_written, written};

use crate::refusal::Refusal;
use itoa::Buffer;

/// Writes a text at the end of the columns, after spaces; one too wide leaves them as found.
fn write_text(field: &mut [u8], text: &[u8]) -> Result<(), Refusal>
    ensures { Gives (text_written field.old text.now) result field.new }
{
    let first = field.len().checked_sub(text.len()).ok_or(Refusal::TooWide)?;
    let (spaces, columns) = field.split_at_mut(first);
    spaces.fill(b' ');
    columns.copy_from_slice(text);
    Ok(())
}

#[tactic(auto, using(crate::proofs::Library::number_written), unfolding(crate::specs::Fields::written, crate::specs::Fields::right_justified))]
/// Writes a number right-justified after spaces; one too wide leaves the columns as found.
pub fn write_number(field: &mut [u8], n: i128) -> Result<(), Refusal>
    ensures { Gives (written field.old n) result field.new }
{
    write_text(field, Buffer::new().format(n).as_bytes())
}
