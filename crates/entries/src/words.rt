ghost use Rattle.std.specs.Prelude.{◌≡◌};
ghost use Rattle.entries.specs.Words.{first_word, words_after};

/// The first word of a text, and what follows its comma: nothing where there is none.
pub(crate) fn split_word(text: &str) -> (&str, &str)
    ensures word { result.0.now ≡ first_word text.now }
    ensures after { result.1.now ≡ words_after text.now }
{
    text.split_once(',').unwrap_or((text, ""))
}
