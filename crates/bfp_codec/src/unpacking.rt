ghost use Rattle.std.specs.Prelude.{◌≡◌, ℕ, pos, ◌*ℤ◌, ◌+◌, ◌*◌, ◌-◌, ◌<◌, ◌≤◌, ◌^◌, ◌/◌, ◌%◌, ◌⊎◌, length, slice_index_or};
ghost use Rattle.bfp_codec.specs.Field.{field, signed};
ghost use Rattle.bfp_codec.specs.Samples.{no_wide, pair_of};
ghost use Rattle.bfp_codec.specs.Eight.{value_in, four_in, number_in};
ghost use Rattle.bfp_codec.specs.Exponent.{floor_of, Within};
ghost use Rattle.bfp_codec.specs.Layout.{HasWidth, length_of, unpacked_of};
ghost use Rattle.bfp_codec.specs.declared.methods.Method.TheVariants.{Plain, Bfp};

use crate::methods::Method;
use crate::number_at;
use crate::samples::Wide;

/// The whole number at or below `x` over a power of two.
#[inline(always)]
fn floor_at(x: i32, e: u8) -> i32
    requires { e ≤ 31 }
    ensures { result ≡ floor_of x e }
{
    x >> e
}

/// The last `width` bits of a number, as a signed number.
#[inline(always)]
fn signed_bits(number: u128, width: u8) -> i32
    requires low { 1 ≤ width }
    requires high { width ≤ 16 }
    ensures value { result ≡ signed width (number % 2 ^ width) }
    ensures within { Within 16 result }
{
    let lost = 32 - width;
    let top = ((number & 0xffff) as u32) << lost;
    floor_at(top.cast_signed(), lost)
}

/// A number times a power of two.
#[inline(always)]
fn scaled(x: i32, e: u8) -> i32
    requires within { Within 16 x }
    requires small { e ≤ 15 }
    ensures { result ≡ x *ℤ pos (2 ^ e) }
{
    x * (1 << e)
}

/// The value of number k of eight.
#[inline(always)]
fn value(number: u128, width: u8, k: u8, e: u8) -> i32
    requires low { 1 ≤ width }
    requires high { width ≤ 16 }
    requires place { k ≤ 7 }
    requires small { e ≤ 15 }
    ensures { result ≡ value_in number width e k }
{
    scaled(signed_bits(number >> (width * (7 - k)), width), e)
}

/// Writes the four samples of eight numbers.
#[inline(always)]
fn put_four(into: &mut [Wide; 12], part: usize, number: u128, width: u8, e: u8)
    requires low { 1 ≤ width }
    requires high { width ≤ 16 }
    requires part { part ≤ 2 }
    requires small { e ≤ 15 }
    ensures four { (j : ℕ) → j < 4 → slice_index_or into.new (4 * part + j) no_wide ≡ pair_of (value_in number width e) j }
    ensures others { (j : ℕ) → (j < 4 * part) ⊎ (4 * part + 4 ≤ j) → slice_index_or into.new j no_wide ≡ slice_index_or into.old j no_wide }
{
    for k in 0..4 {
        into[4 * part + k] = Wide {
            i: value(number, width, 2 * k as u8, e),
            q: value(number, width, 2 * k as u8 + 1, e),
        };
    }
}

/// The exponent in udCompParam.
#[inline(always)]
#[tactic(auto, using(std::proofs::lemmas::Grind::common_steps, crate::proofs::Field::fields))]
fn exponent_at(bytes: &[u8]) -> u8
    requires { 1 ≤ length bytes.now }
    ensures value { result ≡ field bytes.now 4 4 }
    ensures small { result ≤ 15 }
{
    bytes[0] & 0xf
}

/// Four bytes from a place on, as one number.
#[inline(always)]
#[tactic(auto, using(crate::proofs::Field::field_word))]
fn half_at(bytes: &[u8], at: usize) -> u32
    requires { at + 4 ≤ length bytes.now }
    ensures { result ≡ field bytes.now (8 * at) 32 }
{
    u32::from_be_bytes([bytes[at], bytes[at + 1], bytes[at + 2], bytes[at + 3]])
}

/// Eight bytes from a place on, as one number.
#[inline(always)]
fn word_at(bytes: &[u8], at: usize) -> u64
    requires { at + 8 ≤ length bytes.now }
    ensures { result ≡ field bytes.now (8 * at) 64 }
{
    ((half_at(bytes, at) as u64) << 32) | half_at(bytes, at + 4) as u64
}

/// The value of number k of the four that a word ends with.
#[inline(always)]
fn value_of_four(four: u64, width: u8, k: u8, e: u8) -> i32
    requires low { 1 ≤ width }
    requires high { width ≤ 16 }
    requires place { k ≤ 3 }
    requires small { e ≤ 15 }
    ensures { result ≡ four_in four width e k }
{
    scaled(signed_bits((four >> (width * (3 - k))) as u128, width), e)
}

/// Writes the two samples of the four numbers that a word ends with.
#[inline(always)]
fn put_two(into: &mut [Wide; 12], from: usize, four: u64, width: u8, e: u8)
    requires low { 1 ≤ width }
    requires high { width ≤ 16 }
    requires place { from ≤ 10 }
    requires small { e ≤ 15 }
    ensures two { (j : ℕ) → j < 2 → slice_index_or into.new (from + j) no_wide ≡ pair_of (four_in four width e) j }
    ensures others { (j : ℕ) → (j < from) ⊎ (from + 2 ≤ j) → slice_index_or into.new j no_wide ≡ slice_index_or into.old j no_wide }
{
    for k in 0..2 {
        into[from + k] = Wide {
            i: value_of_four(four, width, 2 * k as u8, e),
            q: value_of_four(four, width, 2 * k as u8 + 1, e),
        };
    }
}

/// Writes the four samples of the eight numbers that fill `width` bytes from a place on: the first
/// four numbers lie in the first eight of these bytes, and the others in the last eight.
#[inline(always)]
fn put_group(into: &mut [Wide; 12], part: usize, bytes: &[u8], at: usize, width: u8, e: u8)
    requires low { 8 ≤ width }
    requires high { width ≤ 16 }
    requires part { part ≤ 2 }
    requires small { e ≤ 15 }
    requires room { at + width ≤ length bytes.now }
    ensures four { (j : ℕ) → j < 4 → slice_index_or into.new (4 * part + j) no_wide ≡ pair_of (number_in bytes.now at width e) j }
    ensures others { (j : ℕ) → (j < 4 * part) ⊎ (4 * part + 4 ≤ j) → slice_index_or into.new j no_wide ≡ slice_index_or into.old j no_wide }
{
    let first = word_at(bytes, at) >> (64 - 4 * width);
    let last = word_at(bytes, at + width as usize - 8);
    put_two(into, 4 * part, first, width, e);
    put_two(into, 4 * part + 2, last, width, e);
}

/// Writes the samples of a block's bytes at a width: best where the compiler knows the width.
#[inline(always)]
fn unpack_at(width: u8, bytes: &[u8], into: &mut [Wide; 12])
    requires low { 1 ≤ width }
    requires high { width ≤ 16 }
    requires len { length bytes.now ≡ 1 + 3 * width }
    ensures { into.new ≡ unpacked_of (Bfp width) bytes.now }
{
    let e = exponent_at(bytes);
    let w = width as usize;
    put_four(into, 0, number_at(bytes, 1, w), width, e);
    put_four(into, 1, number_at(bytes, 1 + w, w), width, e);
    put_four(into, 2, number_at(bytes, 1 + 2 * w, w), width, e);
}

/// The same at a width of 9 bits and more, by two words for each group of eight numbers.
#[inline(always)]
fn unpack_words(width: u8, bytes: &[u8], into: &mut [Wide; 12])
    requires low { 9 ≤ width }
    requires high { width ≤ 16 }
    requires len { length bytes.now ≡ 1 + 3 * width }
    ensures { into.new ≡ unpacked_of (Bfp width) bytes.now }
{
    let e = exponent_at(bytes);
    let w = width as usize;
    put_group(into, 0, bytes, 1, width, e);
    put_group(into, 1, bytes, 1 + w, width, e);
    put_group(into, 2, bytes, 1 + 2 * w, width, e);
}

/// Writes the samples of a block's bytes at a width, with a kernel of its own for each from 8 on. A call of its own, so that four
/// numbers are stored at once wherever it is called.
#[inline(never)]
fn unpack_bfp(width: u8, bytes: &[u8], into: &mut [Wide; 12])
    requires low { 1 ≤ width }
    requires high { width ≤ 16 }
    requires len { length bytes.now ≡ 1 + 3 * width }
    ensures { into.new ≡ unpacked_of (Bfp width) bytes.now }
{
    match width {
        9 => unpack_words(9, bytes, into),
        14 => unpack_words(14, bytes, into),
        8 => unpack_at(8, bytes, into),
        12 => unpack_words(12, bytes, into),
        16 => unpack_words(16, bytes, into),
        10 => unpack_words(10, bytes, into),
        11 => unpack_words(11, bytes, into),
        13 => unpack_words(13, bytes, into),
        15 => unpack_words(15, bytes, into),
        _ => unpack_at(width, bytes, into),
    }
}

/// Two bytes from a place on, as one number.
#[inline(always)]
#[tactic(auto, using(crate::proofs::Field::field_half))]
fn pair_at(bytes: &[u8], at: usize) -> u16
    requires { at + 2 ≤ length bytes.now }
    ensures { result ≡ field bytes.now (8 * at) 16 }
{
    u16::from_be_bytes([bytes[at], bytes[at + 1]])
}

/// The signed number in two bytes.
#[inline(always)]
fn plain_at(bytes: &[u8], at: usize) -> i32
    requires { at + 2 ≤ length bytes.now }
    ensures { result ≡ signed 16 (field bytes.now (8 * at) 16) }
{
    signed_bits(pair_at(bytes, at) as u128, 16)
}

/// Writes the samples of the bytes of a block that is not compressed.
fn unpack_plain(bytes: &[u8], into: &mut [Wide; 12])
    requires { length bytes.now ≡ 48 }
    ensures { into.new ≡ unpacked_of Plain bytes.now }
{
    for k in 0..12 {
        into[k] = Wide {
            i: plain_at(bytes, 4 * k),
            q: plain_at(bytes, 4 * k + 2),
        };
    }
}

/// Writes the samples of a block's bytes where they are kept, over all that was there: those that `unpack` answers.
/// It takes no memory.
pub fn unpack_into(method: Method, bytes: &[u8], into: &mut [Wide; 12])
    requires width { HasWidth method }
    requires len { length bytes.now ≡ length_of method }
    ensures { into.new ≡ unpacked_of method bytes.now }
{
    match method {
        Method::Plain => unpack_plain(bytes, into),
        Method::Bfp(width) => unpack_bfp(width, bytes, into),
    }
}

/// The samples of a block's bytes: for block floating point each mantissa times 2 to the exponent.
/// It takes no memory.
pub fn unpack(method: Method, bytes: &[u8]) -> [Wide; 12]
    requires width { HasWidth method }
    requires len { length bytes.now ≡ length_of method }
    ensures { result ≡ unpacked_of method bytes.now }
{
    let mut samples = [Wide { i: 0, q: 0 }; 12];
    unpack_into(method, bytes, &mut samples);
    samples
}
