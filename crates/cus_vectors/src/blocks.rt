// Blocks of 12 samples, packed and unpacked.
ghost use Rattle.std.specs.Prelude.{IfSome, ◌≤◌};
ghost use Rattle.bfp_codec.specs.Layout.{HasWidth};

use crate::hexadecimal::text_of;
use crate::words::{byte, over, short};
use bfp_codec::{Iq, Method, Wide, block_len, exponent, pack, unpack};
use std::alloc::{AllocError, Global};
use std::str::SplitWhitespace;

/// The method that a word names: `plain`, or the width of the mantissas.
fn method(word: &str) -> Option<Method>
    ensures { IfSome result (λ m. HasWidth m) }
{
    if word == "plain" {
        return Some(Method::Plain);
    }
    let width = word.parse::<u8>().ok()?;
    if width < 1 || width > 16 {
        return None;
    }
    Some(Method::Bfp(width))
}

/// A block that an entry names, and its method.
#[derive(Clone, Copy)]
pub struct Block {
    method: Method,
    samples: [Iq; 12],
}

/// A block with one number at a place of 24, and zeros at the others.
fn alone(place: u8, number: i16) -> Option<[Iq; 12]> {
    let mut samples = [Iq { i: 0, q: 0 }; 12];
    let pair = samples.get_mut(place as usize / 2)?;
    if place % 2 == 0 {
        pair.i = number;
    } else {
        pair.q = number;
    }
    Some(samples)
}

/// The block of `METHOD` and 24 numbers: I, Q of each sample.
pub fn read_block(words: &mut SplitWhitespace<'_>) -> Option<Block>
    ensures { IfSome result (λ b. HasWidth b.method) }
{
    let method = method(words.next()?)?;
    let mut samples = [Iq { i: 0, q: 0 }; 12];
    for k in 0..12 {
        let i = short(words)?;
        let q = short(words)?;
        samples[k] = Iq { i, q };
    }
    over(words)?;
    Some(Block { method, samples })
}

/// The block of `METHOD PLACE NUMBER`: a number at a place of 24, and zeros at the others.
pub fn read_single(words: &mut SplitWhitespace<'_>) -> Option<Block>
    ensures { IfSome result (λ b. HasWidth b.method) }
{
    let method = method(words.next()?)?;
    let place = byte(words)?;
    let number = short(words)?;
    over(words)?;
    let samples = alone(place, number)?;
    Some(Block { method, samples })
}

/// The bytes to which a block is packed, and what they are unpacked to.
pub fn block_text(alloc: Global, block: &Block) -> Result<String, AllocError>
    requires { HasWidth block.now.method }
{
    let packed = pack(block.method, &block.samples);
    let bytes = text_of(alloc, packed.as_slice())?;
    let samples = unpack(block.method, packed.as_slice());
    let numbers = samples_text(alloc, &samples)?;
    format!(in alloc; "{bytes}{numbers}")
}

/// The numbers of samples that are not 0, each after its place of 24.
fn samples_text(alloc: Global, samples: &[Wide; 12]) -> Result<String, AllocError> {
    let mut text = String::new(alloc);
    for k in 0..12 {
        let pair = samples[k];
        if pair.i != 0 {
            text.push_str(format!(in alloc; " {}:{}", 2 * k, pair.i)?.as_str())?;
        }
        if pair.q != 0 {
            text.push_str(format!(in alloc; " {}:{}", 2 * k + 1, pair.q)?.as_str())?;
        }
    }
    Ok(text)
}

/// The method that a word names.
pub fn read_method(words: &mut SplitWhitespace<'_>) -> Option<Method>
    ensures { IfSome result (λ m. HasWidth m) }
{
    method(words.next()?)
}

/// What bytes are unpacked to. None where they are not as many as a block has.
pub fn unpacked_text(
    alloc: Global,
    method: Method,
    bytes: &[u8],
) -> Result<Option<String>, AllocError>
    requires { HasWidth method }
{
    if bytes.len() != block_len(method) {
        return Ok(None);
    }
    let samples = unpack(method, bytes);
    Ok(Some(samples_text(alloc, &samples)?))
}

/// The width and the number of `WIDTH NUMBER`.
pub fn read_exponent(words: &mut SplitWhitespace<'_>) -> Option<(u8, i16)>
    ensures least { IfSome result (λ e. 1 ≤ e.0) }
    ensures most { IfSome result (λ e. e.0 ≤ 16) }
{
    let width = byte(words)?;
    let number = short(words)?;
    over(words)?;
    if width < 1 || width > 16 {
        return None;
    }
    Some((width, number))
}

/// The exponents of the 24 blocks that have one number, at one place after the other.
pub fn exponents_text(alloc: Global, width: u8, number: i16) -> Result<String, AllocError>
    requires least { 1 ≤ width }
    requires most { width ≤ 16 }
{
    let mut text = String::new(alloc);
    for place in 0..24u8 {
        if let Some(samples) = alone(place, number) {
            let e = exponent(&samples, width);
            text.push_str(format!(in alloc; " {e}")?.as_str())?;
        }
    }
    Ok(text)
}
