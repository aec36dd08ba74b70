// The first and the last line.
ghost use Rattle.std.specs.Prelude.{◌≡◌};
ghost use Rattle.pictures.specs.Refusals.{head_line, is_end};

use crate::faults::TextWhy;
use line_words::Words;

/// Tests line 1, which is the two words `explain` and `1`.
///
/// # Errors
///
/// [`TextWhy::Head`] exactly where it is not.
pub fn head_line(words: &Words<'_>) -> Result<(), TextWhy>
    ensures { result ≡ head_line words.now }
{
    if words.len() == 2
        && words.word(0) == b"explain".as_slice()
        && words.word(1) == b"1".as_slice()
    {
        return Ok(());
    }
    Err(TextWhy::Head)
}

/// Whether a line is the one word `end`.
pub fn is_end(words: &Words<'_>) -> bool
    ensures { result ≡ is_end words.now }
{
    words.len() == 1 && words.word(0) == b"end".as_slice()
}
