// Blocks, packed and unpacked.
ghost use Rattle.std.specs.Prelude.{◌≤◌};
ghost use Rattle.bfp_codec.specs.Layout.{HasWidth};

use crate::blocks::{BLOCKS, blocks, method_of};
use crate::words::Ending;
use bfp_codec::{Method, Wide, block_len, pack, unpack};
use std::io;

/// A byte of each packed block, added up.
fn packs(method: Method, count: u64) -> u64
    requires { HasWidth method }
{
    let blocks = blocks();
    let stride = block_len(method) / 4;
    let mut sum: u64 = 0;
    for k in 0..count {
        let packed = pack(method, &blocks[(k % 64) as usize]);
        let bytes = packed.as_slice();
        let at = (k % 4) as usize * stride;
        if at < bytes.len() {
            sum = sum.wrapping_add(bytes[at] as u64);
        }
    }
    sum
}

/// The blocks that take turns, packed: each in the front of 49 bytes.
fn all_packed(method: Method) -> [[u8; 49]; BLOCKS]
    requires { HasWidth method }
{
    let blocks = blocks();
    let mut all = [[0; 49]; BLOCKS];
    for k in 0..BLOCKS {
        all[k] = front_of(pack(method, &blocks[k]).as_slice());
    }
    all
}

/// At most 49 bytes, with zeros after them.
fn front_of(bytes: &[u8]) -> [u8; 49] {
    let mut front = [0; 49];
    for k in 0..49 {
        if k < bytes.len() {
            front[k] = bytes[k];
        }
    }
    front
}

/// A sample as a number to be added.
fn number_of(sample: Wide) -> u64 {
    (sample.i as i64)
        .cast_unsigned()
        .wrapping_add((sample.q as i64).cast_unsigned())
}

/// A sample of each unpacked block, added up.
fn unpacks(method: Method, count: u64) -> u64
    requires { HasWidth method }
{
    let all = all_packed(method);
    let len = block_len(method);
    let mut sum: u64 = 0;
    for k in 0..count {
        let bytes = &all[(k % 64) as usize];
        let samples = unpack(method, &bytes[..len]);
        sum = sum.wrapping_add(number_of(samples[(k % 12) as usize]));
    }
    sum
}

/// What is done with each block.
#[derive(Clone, Copy)]
enum Work {
    Pack,
    Unpack,
}

impl Work {
    fn of(word: &str) -> Option<Work> {
        match word {
            "pack" => Some(Work::Pack),
            "unpack" => Some(Work::Unpack),
            _ => None,
        }
    }

    fn name(self) -> &'static str {
        match self {
            Work::Pack => "pack",
            Work::Unpack => "unpack",
        }
    }
}

/// What is done with how many blocks, with mantissas of so many bits (0: not compressed).
#[derive(Clone, Copy)]
struct Load {
    work: Work,
    width: u8,
    count: u64,
    ghost few: { width ≤ 16 },
}

impl Load {
    fn of(words: &[&str]) -> Option<Load> {
        let [work, width, count] = *words else {
            return None;
        };
        let width = width.parse::<u8>().ok()?;
        if width > 16 {
            return None;
        }
        Some(Load {
            work: Work::of(work)?,
            width,
            count: count.parse::<u64>().ok()?,
        })
    }

    fn sum(&self) -> u64 {
        let method = method_of(self.width);
        match self.work {
            Work::Pack => packs(method, self.count),
            Work::Unpack => unpacks(method, self.count),
        }
    }
}

/// `pack|unpack WIDTH COUNT`: packs or unpacks COUNT blocks with mantissas of WIDTH bits, and prints a checksum.
pub fn run(rt: &impl Print, words: &[&str]) -> io::Result<Ending> {
    let Some(load) = Load::of(words) else {
        return Ok(Ending::BadWords);
    };
    let sum = load.sum();
    println!(rt; "{} {} {} {sum}", load.work.name(), load.width, load.count)?;
    Ok(Ending::Done)
}
