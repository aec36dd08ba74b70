// The blocks that are packed, and the compressions.
ghost use Rattle.std.specs.Prelude.{◌≤◌};
ghost use Rattle.bfp_codec.specs.Layout.{HasWidth};

use bfp_codec::{Iq, Method};

/// How many blocks take turns.
pub const BLOCKS: usize = 64;

/// The next of a row of numbers from -1,000 to 1,000.
fn next(state: &mut u32) -> i16 {
    *state = state.wrapping_mul(1664525).wrapping_add(1013904223);
    ((*state >> 16) % 2001) as i16 - 1000
}

/// The next block.
fn block(state: &mut u32) -> [Iq; 12] {
    let mut block = [Iq { i: 0, q: 0 }; 12];
    for k in 0..12 {
        let i = next(state);
        let q = next(state);
        block[k] = Iq { i, q };
    }
    block
}

/// The blocks that take turns.
pub fn blocks() -> [[Iq; 12]; BLOCKS] {
    let mut state: u32 = 1;
    let mut blocks = [[Iq { i: 0, q: 0 }; 12]; BLOCKS];
    for k in 0..BLOCKS {
        blocks[k] = block(&mut state);
    }
    blocks
}

/// The compression with mantissas of so many bits, none for 0.
pub fn method_of(width: u8) -> Method
    requires { width ≤ 16 }
    ensures { HasWidth result }
{
    if width == 0 {
        Method::Plain
    } else {
        Method::Bfp(width)
    }
}
