// The numbers that the words of a line spell.
ghost use Rattle.std.specs.Prelude.{◌≡◌, ◌^◌, ◌<◌, ◌≤◌, IfSome};
ghost use Rattle.fh_document.specs.Words.{number_in};

/// The most digits of a number.
const MOST_DIGITS: usize = 13;

/// A decimal number of at most `MOST_DIGITS` digits, in a range.
pub(crate) fn number_in(word: &[u8], low: u64, high: u64) -> Option<u64>
    ensures value { result ≡ number_in low high word.now }
    ensures within { IfSome result (λ n. (low ≤ n) × (n ≤ high) × (n < 10 ^ MOST_DIGITS)) }
{
    fh_base::number_in(word, MOST_DIGITS, low, high)
}

/// The same as a number of 8 bits.
pub(crate) fn byte_in(word: &[u8], low: u8, high: u8) -> Option<u8>
    ensures { result ≡ number_in low high word.now }
{
    let n = number_in(word, u64::from(low), u64::from(high))?;
    Some(n as u8)
}

/// The same as a number of 16 bits.
pub(crate) fn short_in(word: &[u8], low: u16, high: u16) -> Option<u16>
    ensures { result ≡ number_in low high word.now }
{
    let n = number_in(word, u64::from(low), u64::from(high))?;
    Some(n as u16)
}
