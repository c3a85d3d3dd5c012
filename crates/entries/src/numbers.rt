ghost use Rattle.std.specs.Prelude.{◌≡◌};
ghost use Rattle.entries.specs.Numbers.{number_in, u16_in, u32_in, two_numbers_in};

use crate::words::split_word;
use columns::read_number;

/// The number whose text a word is.
pub(crate) fn number(word: &str) -> Option<i64>
    ensures { result ≡ number_in word.now }
{
    let word = word.as_bytes();
    if word.starts_with(b" ") {
        return None;
    }
    i64::try_from(read_number(word).ok()?).ok()
}

/// The number from 0 to 65,535 whose text a word is.
pub(crate) fn number_u16(word: &str) -> Option<u16>
    ensures { result ≡ u16_in word.now }
{
    u16::try_from(number(word)?).ok()
}

/// The number from 0 to 4,294,967,295 whose text a word is.
pub(crate) fn number_u32(word: &str) -> Option<u32>
    ensures { result ≡ u32_in word.now }
{
    u32::try_from(number(word)?).ok()
}

/// The numbers of two words.
pub(crate) fn two_numbers(words: &str) -> Option<(i64, i64)>
    ensures { result ≡ two_numbers_in words.now }
{
    let (first, second) = split_word(words);
    Some((number(first)?, number(second)?))
}
