// Bytes from hexadecimal text, and as such text.
ghost use Rattle.std.specs.Prelude.{◌≡◌, ◌<◌, IfSome};
ghost use Rattle.cus_vectors.specs.Digits.{digit_of, octet_of};

use std::alloc::{AllocError, Global};

/// The value of a hexadecimal digit of either case. None exactly where the byte is none.
pub fn digit(byte: u8) -> Option<u8>
    ensures value { result ≡ digit_of byte }
    ensures small { IfSome result (λ d. d < 16) }
{
    if b'0' <= byte && byte <= b'9' {
        Some(byte - b'0')
    } else if b'a' <= byte && byte <= b'f' {
        Some(byte - b'a' + 10)
    } else if b'A' <= byte && byte <= b'F' {
        Some(byte - b'A' + 10)
    } else {
        None
    }
}

/// The byte that two hexadecimal digits spell, the first of them the greater part. None exactly where one of them is
/// no digit.
pub fn octet(first: u8, second: u8) -> Option<u8>
    ensures { result ≡ octet_of first second }
{
    let high = digit(first)?;
    let low = digit(second)?;
    Some(16 * high + low)
}

/// The bytes that a word spells, two digits each; `-` spells none. None where it is no such word.
pub fn bytes_of(alloc: Global, word: &str) -> Result<Option<Vec<u8>>, AllocError> {
    let mut bytes = Vec::new(alloc);
    if word == "-" {
        return Ok(Some(bytes));
    }
    for pair in word.as_bytes().chunks(2) {
        if pair.len() != 2 {
            return Ok(None);
        }
        match octet(pair[0], pair[1]) {
            Some(byte) => bytes.push(byte)?,
            None => return Ok(None),
        }
    }
    Ok(Some(bytes))
}

/// Bytes as a word: two digits each, or `-` where there are none.
pub fn text_of(alloc: Global, bytes: &[u8]) -> Result<String, AllocError> {
    let mut text = String::new(alloc);
    if bytes.is_empty() {
        text.push_str("-")?;
    }
    for byte in bytes {
        text.push_str(format!(in alloc; "{byte:02x}")?.as_str())?;
    }
    Ok(text)
}
