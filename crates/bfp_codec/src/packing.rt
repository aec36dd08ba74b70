ghost use Rattle.std.specs.Prelude.{◌≡◌, ℕ, ◌+◌, ◌*◌, ◌-◌, ◌<◌, ◌≤◌, ◌^◌, ◌⊎◌, length, slice_index, take};
ghost use Rattle.bfp_codec.specs.Field.{field, digits};
ghost use Rattle.bfp_codec.specs.Samples.{component, samples_of};
ghost use Rattle.bfp_codec.specs.Exponent.{floor_of, Within, BlockFits};
ghost use Rattle.bfp_codec.specs.Layout.{HasWidth, IsLaidOut, length_of, twos, packed_of, unpacked_of};
ghost use Rattle.bfp_codec.specs.Shrunk.{IsNear, KeepsBytes, shrunk, shrunk_number, step_of};
ghost use Rattle.bfp_codec.specs.Bytes.{bytes_of};
ghost use Rattle.bfp_codec.specs.Shrunk.{CanPack};
ghost use Rattle.bfp_codec.specs.declared.methods.Method.TheVariants.{Plain, Bfp};

use crate::exponents::exponent;
use crate::methods::{Method, block_len};
use crate::packed_bytes::Packed;
use crate::put_number;
use crate::samples::Iq;

/// The whole number at or below `x` over a power of two.
#[inline(always)]
fn floor_at(x: i16, e: u8) -> i16
    requires { e ≤ 15 }
    ensures { result ≡ floor_of x e }
{
    x >> e
}

/// The greatest number of `width` bits.
#[inline(always)]
fn ones(width: u8) -> u16
    requires low { 1 ≤ width }
    requires high { width ≤ 16 }
    ensures { result ≡ 2 ^ width - 1 }
{
    u16::MAX >> (16 - width)
}

/// The bits of a mantissa.
#[inline(always)]
fn mantissa_bits(x: i16, width: u8, e: u8) -> u16
    requires low { 1 ≤ width }
    requires high { width ≤ 16 }
    requires small { e ≤ 15 }
    requires fits { Within width (floor_of x e) }
    ensures value { result ≡ twos width (floor_of x e) }
    ensures below { result < 2 ^ width }
{
    floor_at(x, e).cast_unsigned() & ones(width)
}

/// The mantissas of each sample as one number. A call of its own, so that the samples are shifted side by side.
#[inline(never)]
fn pairs(block: &[Iq; 12], width: u8, e: u8) -> [u32; 12]
    requires low { 1 ≤ width }
    requires high { width ≤ 16 }
    requires small { e ≤ 15 }
    requires fits { BlockFits width e block.now }
    ensures value { (k : ℕ) → k < 12 → slice_index result k ≡ digits width (λ j. twos width (floor_of (component block.now (2 * k + j)) e)) 2 }
    ensures below { (k : ℕ) → k < 12 → slice_index result k < 2 ^ (2 * width) }
{
    let mut pairs = [0; 12];
    for k in 0..12 {
        let i = mantissa_bits(block[k].i, width, e) as u32;
        let q = mantissa_bits(block[k].q, width, e) as u32;
        pairs[k] = (i << width) | q;
    }
    pairs
}

/// The mantissas of two samples as one number.
#[inline(always)]
fn two_samples(pairs: &[u32; 12], width: u8, part: usize) -> u64
    requires high { width ≤ 16 }
    requires part { part ≤ 5 }
    requires small { (k : ℕ) → k < 12 → slice_index pairs.now k < 2 ^ (2 * width) }
    ensures below { result < 2 ^ (4 * width) }
    ensures value { (f : ℕ → ℕ) → ((k : ℕ) → k < 12 → slice_index pairs.now k ≡ digits width (λ j. f (2 * k + j)) 2)
        → result ≡ digits width (λ k. f (4 * part + k)) 4 }
{
    ((pairs[2 * part] as u64) << (2 * width)) | pairs[2 * part + 1] as u64
}

/// The mantissas of four samples as one number, which fills `width` bytes.
#[inline(always)]
fn four_samples(pairs: &[u32; 12], width: u8, part: usize) -> u128
    requires high { width ≤ 16 }
    requires part { part ≤ 2 }
    requires small { (k : ℕ) → k < 12 → slice_index pairs.now k < 2 ^ (2 * width) }
    ensures below { result < 2 ^ (8 * width) }
    ensures value { (f : ℕ → ℕ) → ((k : ℕ) → k < 12 → slice_index pairs.now k ≡ digits width (λ j. f (2 * k + j)) 2)
        → result ≡ digits width (λ k. f (8 * part + k)) 8 }
{
    let first = two_samples(pairs, width, 2 * part);
    let second = two_samples(pairs, width, 2 * part + 1);
    ((first as u128) << (4 * width)) | second as u128
}

/// Writes 8 bytes from a place on. A call of its own, so that the bytes of a word are stored at once.
#[inline(never)]
fn put_word(into: &mut [u8], at: usize, word: u64)
    requires { at + 8 ≤ length into.old }
    ensures number { field into.new (8 * at) 64 ≡ word }
    ensures others { (k : ℕ) → (k < at) ⊎ (at + 8 ≤ k) → slice_index into.new k ≡ slice_index into.old k }
{
    for k in 0..8 {
        into[at + k] = ((word >> (8 * (7 - k))) & 0xff) as u8;
    }
}

/// Writes the `width` bytes of a number from a place on, the first eight of them and then the last eight.
#[inline(always)]
fn put_words(into: &mut [u8], at: usize, width: u8, number: u128)
    requires low { 8 ≤ width }
    requires high { width ≤ 16 }
    requires room { at + width ≤ length into.old }
    requires fits { number < 2 ^ (8 * width) }
    ensures number { field into.new (8 * at) (8 * width) ≡ number }
    ensures before { (k : ℕ) → k < at → slice_index into.new k ≡ slice_index into.old k }
{
    put_word(into, at, (number >> (8 * (width - 8))) as u64);
    put_word(
        into,
        at + width as usize - 8,
        (number & 0xffff_ffff_ffff_ffff) as u64,
    );
}

/// Writes the `width` bytes of a number from a place on.
#[inline(always)]
fn put_samples(into: &mut [u8], at: usize, width: u8, number: u128)
    requires high { width ≤ 16 }
    requires room { at + width ≤ length into.old }
    requires fits { number < 2 ^ (8 * width) }
    ensures number { field into.new (8 * at) (8 * width) ≡ number }
    ensures before { (k : ℕ) → k < at → slice_index into.new k ≡ slice_index into.old k }
{
    if width < 8 {
        put_number(into, at, width as usize, number);
    } else {
        put_words(into, at, width, number);
    }
}

/// Writes the bytes of a block at a width: best where the compiler knows the width.
#[inline(always)]
fn pack_at(width: u8, block: &[Iq; 12], into: &mut [u8])
    requires low { 1 ≤ width }
    requires high { width ≤ 16 }
    requires len { length into.old ≡ 1 + 3 * width }
    ensures bytes { into.new ≡ packed_of (Bfp width) block.now }
    ensures can { CanPack (Bfp width) block.now }
{
    let e = exponent(block, width);
    let w = width as usize;
    into[0] = e;
    let pairs = pairs(block, width, e);
    put_samples(into, 1, width, four_samples(&pairs, width, 0));
    put_samples(into, 1 + w, width, four_samples(&pairs, width, 1));
    put_samples(into, 1 + 2 * w, width, four_samples(&pairs, width, 2));
}

/// Writes the bytes of a block at a width, with a kernel of its own for each from 8 on.
fn pack_bfp(width: u8, block: &[Iq; 12], into: &mut [u8])
    requires low { 1 ≤ width }
    requires high { width ≤ 16 }
    requires len { length into.old ≡ 1 + 3 * width }
    ensures bytes { into.new ≡ packed_of (Bfp width) block.now }
    ensures can { CanPack (Bfp width) block.now }
{
    match width {
        9 => pack_at(9, block, into),
        14 => pack_at(14, block, into),
        8 => pack_at(8, block, into),
        12 => pack_at(12, block, into),
        16 => pack_at(16, block, into),
        10 => pack_at(10, block, into),
        11 => pack_at(11, block, into),
        13 => pack_at(13, block, into),
        15 => pack_at(15, block, into),
        _ => pack_at(width, block, into),
    }
}

/// The bits of a number of 16.
#[inline(always)]
fn plain_bits(x: i16) -> u16
    ensures value { result ≡ twos 16 x }
    ensures within { Within 16 x }
{
    x.cast_unsigned()
}

/// Four samples as one number, which fills 16 bytes.
#[inline(always)]
fn four_plain(block: &[Iq; 12], part: usize) -> u128
    requires { part ≤ 2 }
    ensures value { result ≡ digits 16 (λ k. twos 16 (component block.now (8 * part + k))) 8 }
    ensures within { (k : ℕ) → k < 8 → Within 16 (component block.now (8 * part + k)) }
{
    let mut number: u128 = 0;
    for k in 0..4 {
        let at = 4 * part + k;
        number = (number << 16) | plain_bits(block[at].i) as u128;
        number = (number << 16) | plain_bits(block[at].q) as u128;
    }
    number
}

/// Writes the bytes of a block that is not compressed.
fn pack_plain(block: &[Iq; 12], into: &mut [u8])
    requires { length into.old ≡ 48 }
    ensures bytes { into.new ≡ packed_of Plain block.now }
    ensures can { CanPack Plain block.now }
{
    put_number(into, 0, 16, four_plain(block, 0));
    put_number(into, 16, 16, four_plain(block, 1));
    put_number(into, 32, 16, four_plain(block, 2));
}

/// Writes the bytes of a block where they are to be, over all that was there: those that `pack` answers. It takes no memory.
pub fn pack_into(method: Method, block: &[Iq; 12], into: &mut [u8])
    requires width { HasWidth method }
    requires len { length into.old ≡ length_of method }
    ensures bytes { into.new ≡ packed_of method block.now }
    ensures can { CanPack method block.now }
{
    match method {
        Method::Plain => pack_plain(block, into),
        Method::Bfp(width) => pack_bfp(width, block, into),
    }
}

/// Writes the bytes of a block at the front.
fn pack_front(method: Method, block: &[Iq; 12], into: &mut [u8; 49])
    requires { HasWidth method }
    ensures bytes { take (length_of method) into.new ≡ packed_of method block.now }
    ensures can { CanPack method block.now }
{
    pack_into(method, block, &mut into[..block_len(method)]);
}

/// The bytes of a block: for block floating point the exponent and the mantissas, each the floor of
/// its number over 2 to the exponent. It takes no memory.
pub fn pack(method: Method, block: &[Iq; 12]) -> Packed
    requires { HasWidth method }
    ensures bytes { bytes_of result ≡ packed_of method block.now }
    ensures length { length (bytes_of result) ≡ length_of method }
    ensures fields { IsLaidOut method block.now (bytes_of result) }
    ensures unpacked { unpacked_of method (bytes_of result) ≡ shrunk method block.now }
    ensures near { (k : ℕ) → k < 24 → IsNear (step_of method block.now) (shrunk_number method block.now k) (component block.now k) }
    ensures again { unpacked_of method (packed_of method (samples_of (shrunk method block.now))) ≡ shrunk method block.now }
    ensures kept { KeepsBytes method → packed_of method (samples_of (shrunk method block.now)) ≡ bytes_of result }
{
    let mut room = Packed::zeros(block_len(method));
    pack_front(method, block, &mut room.bytes);
    room
}
