// Numbers and names among the words.
ghost use Rattle.std.specs.Prelude.{◌≡◌, pos, neg_ℤ, ◌^◌, ◌<◌, ◌≤◌, ◌≤ℤ◌, length, IfSome};
ghost use Rattle.pictures.specs.Numbers.{numeral, keyed, integer, digit, after, is_lower_hex, is_id, is_mask, is_name_byte, is_name, is_free};

use fh_base::number_in;
use line_words::{KEPT, Words};

/// The most digits of a number.
const MOST_DIGITS: usize = 16;

/// The number that 1 to 16 decimal digits spell, where it lies from `low` to `high`.
pub fn numeral(word: &[u8], low: u64, high: u64) -> Option<u64>
    ensures value { result ≡ numeral low high word.now }
    ensures within { IfSome result (λ n. (low ≤ n) × (n ≤ high) × (n < 10 ^ MOST_DIGITS)) }
{
    number_in(word, MOST_DIGITS, low, high)
}

/// What is in a word after a key; nothing where the word does not begin with it.
pub fn after<'a>(key: &[u8], word: &'a [u8]) -> &'a [u8]
    ensures { result.now ≡ after key.now word.now }
{
    if word.len() >= key.len() && &word[..key.len()] == key {
        &word[key.len()..]
    } else {
        b""
    }
}

/// The number after a key, as in `prb=0`.
pub fn keyed(key: &[u8], word: &[u8], low: u64, high: u64) -> Option<u64>
    ensures value { result ≡ keyed key.now low high word.now }
    ensures within { IfSome result (λ n. (low ≤ n) × (n ≤ high) × (n < 10 ^ MOST_DIGITS)) }
{
    numeral(after(key, word), low, high)
}

/// The signed number that 1 to 16 decimal digits spell, with or without a minus before them.
pub fn integer(word: &[u8]) -> Option<i64>
    ensures value { result ≡ integer word.now }
    ensures low { IfSome result (λ z. neg_ℤ (pos (10 ^ MOST_DIGITS)) ≤ℤ z) }
    ensures high { IfSome result (λ z. z ≤ℤ pos (10 ^ MOST_DIGITS)) }
{
    if word.first() == Some(&b'-') {
        let n = numeral(&word[1..], 0, u64::MAX)?;
        return Some(-(n as i64));
    }
    let n = numeral(word, 0, u64::MAX)?;
    Some(n as i64)
}

/// The number of one decimal digit.
pub fn digit(word: &[u8]) -> Option<u8>
    ensures value { result ≡ digit word.now }
    ensures small { IfSome result (λ n. n ≤ 9) }
{
    let n = number_in(word, 1, 0, 9)?;
    Some(n as u8)
}

/// Whether each byte is a lower-case hexadecimal digit.
fn is_lower_hex(word: &[u8]) -> bool
    ensures { result ≡ is_lower_hex word.now }
{
    let mut all = true;
    for b in word {
        all &= matches!(*b, b'0'..=b'9') || matches!(*b, b'a'..=b'f');
    }
    all
}

/// Whether a word is the id of an endpoint: four lower-case hexadecimal digits.
pub fn is_id(word: &[u8]) -> bool
    ensures { result ≡ is_id word.now }
{
    word.len() == 4 && is_lower_hex(word)
}

/// Whether a word is a mask: `mask=` and three lower-case hexadecimal digits.
pub fn is_mask(word: &[u8]) -> bool
    ensures { result ≡ is_mask word.now }
{
    let digits = after(b"mask=", word);
    digits.len() == 3 && is_lower_hex(digits)
}

/// Whether a byte may be in a word that says more: a lower-case letter, a digit, `_`, `=` or `-`.
fn is_name_byte(b: u8) -> bool
    ensures { result ≡ is_name_byte b }
{
    matches!(b, b'a'..=b'z') || matches!(b, b'0'..=b'9') || b == b'_' || b == b'=' || b == b'-'
}

/// Whether each byte may be in such a word.
fn is_name(word: &[u8]) -> bool
    ensures { result ≡ is_name word.now }
{
    let mut all = true;
    for b in word {
        all &= is_name_byte(*b);
    }
    all
}

/// Whether the word with this index is missing, or says more in 1 to 40 such bytes.
pub fn is_free(words: &Words<'_>, i: usize) -> bool
    requires { i < KEPT }
    ensures { result ≡ is_free words.now i }
{
    if words.len() <= i {
        return true;
    }
    let word = words.word(i);
    word.len() >= 1 && word.len() <= 40 && is_name(word)
}
