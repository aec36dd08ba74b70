// Numbers and frames that are spelled in hexadecimal digits.
ghost use Rattle.std.specs.Prelude.{◌≡◌, ◌+◌, ◌*◌, ◌%◌, ◌<◌, ◌++◌, length, take, drop, map, IfOk};
ghost use Rattle.fh_document.specs.Hex.{is_hex, hex_of, value_of, joined, decoded, digits_frame, frame_of};

use fh_base::{Bytes, FRAME_LIMIT, NoMemory};
use std::alloc::Global;

/// How many digits are decoded at once.
const DIGITS: usize = 128;

/// How many bytes they spell.
const BYTES: usize = 64;

/// How many bytes are a row of these.
const ROW: usize = 8;

/// Whether each byte is a digit. All are looked at, many at once, wherever one is none.
fn is_hex(word: &[u8]) -> bool
    ensures { result ≡ is_hex word.now }
{
    let mut all = true;
    for b in word {
        all &= b.is_ascii_hexdigit();
    }
    all
}

/// The value of a digit. Of another byte it means nothing.
#[inline]
fn value_of(b: u8) -> u8
    ensures { result ≡ value_of b }
{
    b % 16 + if b < 64 { 0 } else { 9 }
}

/// The values of digits.
#[inline(always)]
fn values_of(digits: &[u8; DIGITS]) -> [u8; DIGITS]
    ensures { result ≡ map value_of digits.now }
{
    let mut values = [0; DIGITS];
    for i in 0..DIGITS {
        values[i] = value_of(digits[i]);
    }
    values
}

/// Puts a row, of the bytes that values join to, after the rows before it.
#[inline(always)]
fn put_row(row: usize, values: &[u8; DIGITS], bytes: &mut [u8; BYTES])
    requires row { ROW * row < BYTES }
    requires before { joined values.now ≡ take (ROW * row) bytes.old ++ joined (drop (2 * (ROW * row)) values.now) }
    ensures { joined values.now ≡ take (ROW * (row + 1)) bytes.new ++ joined (drop (2 * (ROW * (row + 1))) values.now) }
{
    for i in 0..ROW {
        let at = ROW * row + i;
        bytes[at] = values[2 * at] % 16 * 16 + values[2 * at + 1] % 16;
    }
}

/// The bytes that values join to, two for a byte.
#[inline(always)]
fn joined(values: &[u8; DIGITS]) -> [u8; BYTES]
    ensures { result ≡ joined values.now }
{
    let mut bytes = [0; BYTES];
    for row in 0..BYTES / ROW {
        put_row(row, values, &mut bytes);
    }
    bytes
}

/// The bytes that digits spell. Their loops are over arrays, so that each does many at once.
fn decode(digits: &[u8; DIGITS]) -> [u8; BYTES]
    ensures { result ≡ joined (map value_of digits.now) }
{
    let values = values_of(digits);
    joined(&values)
}

/// A number of exactly four hexadecimal digits.
pub(crate) fn hex4(word: &[u8]) -> Option<u16>
    ensures { result ≡ hex_of 4 word.now }
{
    if word.len() != 4 || !is_hex(word) {
        return None;
    }
    let high = value_of(word[0]) % 16 * 16 + value_of(word[1]) % 16;
    let low = value_of(word[2]) % 16 * 16 + value_of(word[3]) % 16;
    Some(u16::from_be_bytes([high, low]))
}

/// A number of exactly three hexadecimal digits.
pub(crate) fn hex3(word: &[u8]) -> Option<u16>
    ensures { result ≡ hex_of 3 word.now }
{
    if word.len() != 3 {
        return None;
    }
    hex4(&[b'0', word[0], word[1], word[2]])
}

/// The frame that digits spell. None where one of them is no digit.
fn decoded(alloc: Global, word: &[u8]) -> Result<Option<Bytes>, NoMemory>
    requires { length word.now % 2 ≡ 0 }
    ensures { IfOk result (λ o. o ≡ decoded word.now) }
{
    if !is_hex(word) {
        return Ok(None);
    }
    let mut frame = Bytes::with_capacity(alloc, word.len() / 2)?;
    let mut digits = [0; DIGITS];
    let mut rest = word;
    'pieces: while !rest.is_empty() {
        let (piece, behind) = rest.split_at(rest.len().min(DIGITS));
        digits[..piece.len()].copy_from_slice(piece);
        let bytes = decode(&digits);
        frame.push_all(&bytes[..piece.len() / 2])?;
        rest = behind;
    }
    Ok(Some(frame))
}

/// The frame that digits spell, two for a byte. None where they are too many or odd, or one is no digit.
fn digits_frame(alloc: Global, word: &[u8]) -> Result<Option<Bytes>, NoMemory>
    ensures { IfOk result (λ o. o ≡ digits_frame word.now) }
{
    if word.len() > 2 * FRAME_LIMIT || word.len() % 2 != 0 {
        return Ok(None);
    }
    decoded(alloc, word)
}

/// The frame that a word spells: digits, or a dash for no bytes. None where it spells none.
pub(crate) fn frame_of(alloc: Global, word: &[u8]) -> Result<Option<Bytes>, NoMemory>
    ensures { IfOk result (λ o. o ≡ frame_of word.now) }
{
    if word == b"-".as_slice() {
        return Ok(Some(Bytes::new(alloc)));
    }
    digits_frame(alloc, word)
}
