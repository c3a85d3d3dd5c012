ghost use Rattle.std.specs.Prelude.{◌≡◌};
ghost use Rattle.columns.specs.Fields.{ReadsWhatIsHeld, UndoesWriting, after_spaces, number_in, reading};
ghost use Rattle.columns.specs.Texts.{begins_plainly};

use crate::refusal::Refusal;
use std::str;

/// What follows the spaces that a field begins with.
pub fn after_spaces(field: &[u8]) -> &[u8]
    ensures { result.now ≡ after_spaces field.now }
{
    let spaces = field.iter().take_while(|byte| **byte == b' ').count();
    &field[spaces..]
}

/// Whether a text begins as a number's does: no needless zero, no "-0", no plus sign.
fn begins_plainly(text: &[u8]) -> bool
    ensures { result ≡ begins_plainly text.now }
{
    matches!(text, [b'0'] | [b'1'..=b'9', ..] | [b'-', b'1'..=b'9', ..])
}

/// The number whose text this is.
fn number_in(text: &[u8]) -> Result<i128, Refusal>
    ensures { result ≡ number_in text.now }
{
    if !begins_plainly(text) {
        return Err(Refusal::NotANumber);
    }
    let text = str::from_utf8(text).map_err(|_| Refusal::NotANumber)?;
    text.parse().map_err(|_| Refusal::NotANumber)
}

/// The number that a field holds, right-justified after spaces.
pub fn read_number(field: &[u8]) -> Result<i128, Refusal>
    ensures answer { result ≡ reading field.now }
    ensures reads_what_is_held { ReadsWhatIsHeld field.now result }
    ensures undoes_writing { UndoesWriting field.now result }
{
    number_in(after_spaces(field))
}
