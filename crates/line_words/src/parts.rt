// The parts of a text between separators.
ghost use Rattle.std.specs.Prelude.{◌≡◌, true, ◌==◌, ◌<◌, ◌≤◌, ◌∷◌, length, map, take, IfSome};
ghost use Rattle.std.specs.List.{position_or_len, slice_split};
ghost use Rattle.std.specs.Simd.Lanes.{mask_l};
ghost use Rattle.line_words.specs.Words.{is_text, are_texts, without_last_feed, parts_left};

use memchr::memchr;
use std::simd::prelude::*;

/// Whether each byte is printable ASCII, from 20 to 7e hex. All are looked at, many at once, wherever one is not.
pub fn is_text(line: &[u8]) -> bool
    ensures { result ≡ is_text line.now }
{
    let mut text = true;
    for b in line {
        text &= *b >= 32 && *b <= 126;
    }
    text
}

/// Whether each byte of a text is printable ASCII or a line feed, so that [`is_text`] holds of each of its lines.
pub fn are_texts(text: &[u8]) -> bool
    ensures { result ≡ are_texts text.now }
{
    let mut all = true;
    for b in text {
        all &= *b == 10 || (*b >= 32 && *b <= 126);
    }
    all
}

/// Whether a line is printable, of a text of which it may be known that all its lines are.
#[inline(always)]
pub fn is_text_in(all: bool, line: &[u8]) -> bool
    requires { all ≡ true → is_text line.now ≡ true }
    ensures { result ≡ is_text line.now }
{
    if all {
        return true;
    }
    is_text(line)
}

/// The bytes before the first that is the separator, and those after it, where there is one.
#[inline(always)]
pub fn cut(separator: u8, bytes: &[u8]) -> (&[u8], Option<&[u8]>)
    ensures parts { slice_split (λ b. b == separator) bytes.now ≡ result.0.now ∷ parts_left separator result.1 }
    ensures shorter { IfSome result.1 (λ rest. length rest.now < length bytes.now) }
{
    match memchr(separator, bytes) {
        Some(end) => (&bytes[..end], Some(&bytes[end + 1..])),
        None => (bytes, None),
    }
}

/// A bit for each of the first sixteen bytes: whether it is the separator.
#[inline(always)]
fn marks_of_16(separator: u8, bytes: &[u8]) -> u64
    requires { 16 ≤ length bytes.now }
    ensures { result ≡ mask_l (map (λ b. b == separator) (take 16 bytes.now)) }
{
    u8x16::from_slice(bytes)
        .simd_eq(u8x16::splat(separator))
        .to_bitmask()
}

/// How many of the first sixteen bytes are before the first that is the separator, or all sixteen.
#[inline(always)]
fn end_in_16(separator: u8, bytes: &[u8]) -> usize
    requires { 16 ≤ length bytes.now }
    ensures { result < 16 → result ≡ position_or_len (λ b. b == separator) bytes.now }
{
    let marks = marks_of_16(separator, bytes);
    if marks == 0 {
        return 16;
    }
    marks.trailing_zeros() as usize
}

/// How many bytes are before the first that is the separator, or all of them, looked at one by one.
#[inline(always)]
fn end_by_one(separator: u8, bytes: &[u8]) -> usize
    ensures value { result ≡ position_or_len (λ b. b == separator) bytes.now }
    ensures within { result ≤ length bytes.now }
{
    for i in 0..bytes.len() {
        if bytes[i] == separator {
            return i;
        }
    }
    bytes.len()
}

/// How many bytes are before the first that is the separator, or all of them, for parts of many bytes.
#[inline(always)]
fn end_by_many(separator: u8, bytes: &[u8]) -> usize
    ensures value { result ≡ position_or_len (λ b. b == separator) bytes.now }
    ensures within { result ≤ length bytes.now }
{
    match memchr(separator, bytes) {
        Some(end) => end,
        None => bytes.len(),
    }
}

/// How many bytes are before the first that is the separator, or all of them.
#[inline(always)]
fn end_of(separator: u8, bytes: &[u8]) -> usize
    ensures value { result ≡ position_or_len (λ b. b == separator) bytes.now }
    ensures within { result ≤ length bytes.now }
{
    if bytes.len() < 16 {
        return end_by_one(separator, bytes);
    }
    let end = end_in_16(separator, bytes);
    if end < 16 {
        return end;
    }
    end_by_many(separator, bytes)
}

/// What [`cut`] gives, faster for parts of a few bytes.
#[inline(always)]
pub(crate) fn cut_near(separator: u8, bytes: &[u8]) -> (&[u8], Option<&[u8]>)
    ensures parts { slice_split (λ b. b == separator) bytes.now ≡ result.0.now ∷ parts_left separator result.1 }
    ensures shorter { IfSome result.1 (λ rest. length rest.now < length bytes.now) }
{
    let end = end_of(separator, bytes);
    if end < bytes.len() {
        (&bytes[..end], Some(&bytes[end + 1..]))
    } else {
        (bytes, None)
    }
}

/// The text without a last line feed.
pub fn without_last_feed(text: &[u8]) -> &[u8]
    ensures { result.now ≡ without_last_feed text.now }
{
    if text.last() == Some(&10) {
        &text[..text.len() - 1]
    } else {
        text
    }
}
