// Numbers that are written at a place among bytes. Each call answers where its text ends; what is after that may be anything.
ghost use Rattle.std.specs.Prelude.{◌≡◌, ◌+◌, ◌<◌, ◌≤◌, take, length, [], ◌∷◌, ◌++◌, decimal, unsigned_abs, if◌then◌else◌};
ghost use Rattle.std.specs.Fmt.{signed_decimal};
ghost use Rattle.fh_base.specs.Words.{spaced_text, spaced_pair_text};

use crate::digits::pair;
use crate::small_numbers::row;
use itoa::Buffer;

/// How many bytes a line has room for.
pub(crate) const ROOM: usize = 512;

/// Writes a byte, which counts or is written over by what is written next.
#[inline(always)]
fn put_if(into: &mut [u8; ROOM], at: usize, byte: u8, counts: bool) -> usize
    requires { at < 512 }
    ensures text { take result into.new ≡ take at into.old ++ (if counts then byte ∷ [] else []) }
    ensures end { result ≤ at + 1 }
{
    into[at] = byte;
    at + usize::from(counts)
}

/// Writes a byte.
#[inline(always)]
fn put_byte(into: &mut [u8; ROOM], at: usize, byte: u8) -> usize
    requires { at < 512 }
    ensures text { take result into.new ≡ take at into.old ++ byte ∷ [] }
    ensures end { result ≡ at + 1 }
{
    into[at] = byte;
    at + 1
}

/// Writes a text.
#[inline(always)]
pub(crate) fn put_text(into: &mut [u8; ROOM], at: usize, text: &[u8]) -> usize
    requires { at + length text.now ≤ 512 }
    ensures text { take result into.new ≡ take at into.old ++ text.now }
    ensures end { result ≡ at + length text.now }
{
    into[at..at + text.len()].copy_from_slice(text);
    at + text.len()
}

/// Writes a number below 1,000 in decimal. What is after its last digit is written over by what is written next.
#[inline(always)]
fn put_three(into: &mut [u8; ROOM], at: usize, n: u32) -> usize
    requires small { n < 1000 }
    requires room { at + 4 ≤ 512 }
    ensures text { take result into.new ≡ take at into.old ++ decimal n }
    ensures end { result ≤ at + 4 }
{
    let (bytes, count) = row(n);
    put_text(into, at, &bytes);
    at + count
}

/// Writes a number of four digits in decimal.
#[inline(always)]
fn put_four(into: &mut [u8; ROOM], at: usize, n: u32) -> usize
    requires four { (1000 ≤ n) × (n < 10000) }
    requires room { at + 4 ≤ 512 }
    ensures text { take result into.new ≡ take at into.old ++ decimal n }
    ensures end { result ≤ at + 4 }
{
    let (thousands, hundreds) = pair(n / 100);
    let (tens, ones) = pair(n % 100);
    put_text(into, at, &[thousands, hundreds, tens, ones])
}

/// Writes a number of five digits in decimal.
fn put_five(into: &mut [u8; ROOM], at: usize, n: u32) -> usize
    requires five { (10000 ≤ n) × (n < 100000) }
    requires room { at + 5 ≤ 512 }
    ensures text { take result into.new ≡ take at into.old ++ decimal n }
    ensures end { result ≤ at + 5 }
{
    let (_, first) = pair(n / 10_000);
    let (thousands, hundreds) = pair(n / 100 % 100);
    let (tens, ones) = pair(n % 100);
    put_text(into, at, &[first, thousands, hundreds, tens, ones])
}

// Writes a number of four or five digits in decimal.
#[inline(always)]
fn put_size(into: &mut [u8; ROOM], at: usize, size: u32) -> usize
    requires small { (1000 ≤ size) × (size < 100000) }
    requires room { at + 5 ≤ 512 }
    ensures text { take result into.new ≡ take at into.old ++ decimal size }
    ensures end { result ≤ at + 5 }
{
    if size < 10_000 {
        put_four(into, at, size)
    } else {
        put_five(into, at, size)
    }
}

// Writes a number of at least four digits in decimal.
#[inline(never)]
fn put_large(into: &mut [u8; ROOM], at: usize, n: u64) -> usize
    requires large { 1000 ≤ n }
    requires room { at + 20 ≤ 512 }
    ensures text { take result into.new ≡ take at into.old ++ decimal n }
    ensures end { result ≤ at + 20 }
{
    if n < 100_000 {
        return put_size(into, at, n as u32);
    }
    let mut buffer = Buffer::new();
    put_text(into, at, buffer.format(n).as_bytes())
}

/// Writes a number of 64 bits in decimal.
#[inline(always)]
pub(crate) fn put_number(into: &mut [u8; ROOM], at: usize, n: u64) -> usize
    requires { at + 20 ≤ 512 }
    ensures text { take result into.new ≡ take at into.old ++ decimal n }
    ensures end { result ≤ at + 20 }
{
    if n < 1_000 {
        put_three(into, at, n as u32)
    } else {
        put_large(into, at, n)
    }
}

/// Writes a signed number of 64 bits in decimal.
pub(crate) fn put_signed(into: &mut [u8; ROOM], at: usize, n: i64) -> usize
    requires { at + 20 ≤ 512 }
    ensures text { take result into.new ≡ take at into.old ++ signed_decimal n }
    ensures end { result ≤ at + 20 }
{
    let mut buffer = Buffer::new();
    put_text(into, at, buffer.format(n).as_bytes())
}

// Writes a signed number of 32 bits and of at least four digits in decimal.
#[inline(never)]
fn put_large_signed(into: &mut [u8; ROOM], at: usize, n: i32) -> usize
    requires large { 1000 ≤ unsigned_abs n }
    requires room { at + 11 ≤ 512 }
    ensures text { take result into.new ≡ take at into.old ++ signed_decimal n }
    ensures end { result ≤ at + 11 }
{
    let size = n.unsigned_abs();
    if size < 100_000 {
        let at = put_if(into, at, b'-', n < 0);
        return put_size(into, at, size);
    }
    let mut buffer = Buffer::new();
    put_text(into, at, buffer.format(n).as_bytes())
}

/// Writes a signed number of 32 bits in decimal; one of at most three digits in the fewest steps.
#[inline(always)]
pub(crate) fn put_small(into: &mut [u8; ROOM], at: usize, n: i32) -> usize
    requires { at + 11 ≤ 512 }
    ensures text { take result into.new ≡ take at into.old ++ signed_decimal n }
    ensures end { result ≤ at + 11 }
{
    let size = n.unsigned_abs();
    if size < 1_000 {
        let at = put_if(into, at, b'-', n < 0);
        put_three(into, at, size)
    } else {
        put_large_signed(into, at, n)
    }
}

/// Writes a space, a number, a comma and a number.
#[inline(always)]
pub(crate) fn put_pair(into: &mut [u8; ROOM], at: usize, first: i32, second: i32) -> usize
    requires { at + 24 ≤ 512 }
    ensures text { take result into.new ≡ take at into.old ++ spaced_pair_text first second }
    ensures end { result ≤ at + 24 }
{
    let at = put_byte(into, at, b' ');
    let at = put_small(into, at, first);
    let at = put_byte(into, at, b',');
    put_small(into, at, second)
}

/// Writes a space and a number in decimal.
#[inline(always)]
pub(crate) fn put_spaced(into: &mut [u8; ROOM], at: usize, n: u64) -> usize
    requires { at + 21 ≤ 512 }
    ensures text { take result into.new ≡ take at into.old ++ spaced_text n }
    ensures end { result ≤ at + 21 }
{
    let at = put_byte(into, at, b' ');
    put_number(into, at, n)
}
