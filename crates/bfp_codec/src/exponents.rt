ghost use Rattle.std.specs.Prelude.{◌≡◌, ℕ, ◌<◌, ◌≤◌, ◌^◌};
ghost use Rattle.bfp_codec.specs.Exponent.{BlockFits, exponent_of};
ghost use Rattle.bfp_codec.specs.Magnitude.{magnitude_of, HasDigits};

use crate::samples::Iq;

/// A number, or one less than its opposite where it is negative.
#[inline(always)]
fn magnitude(x: i16) -> u16
    ensures value { result ≡ magnitude_of x }
    ensures below { result < 2 ^ 15 }
{
    if x < 0 { (-1 - x) as u16 } else { x as u16 }
}

/// A number of as many binary digits as the longest of a block: a call of its own, so that the
/// samples are looked at side by side.
#[inline(never)]
fn longest(block: &[Iq; 12]) -> u16
    ensures { HasDigits block.now 12 result }
{
    let mut all: u16 = 0;
    for k in 0..12 {
        all |= magnitude(block[k].i) | magnitude(block[k].q);
    }
    all
}

/// The exponent of a block at mantissas of `width` bits: the least at which each number, shifted
/// right by it, fits.
#[inline(always)]
pub fn exponent(block: &[Iq; 12], width: u8) -> u8
    requires low { 1 ≤ width }
    requires high { width ≤ 16 }
    ensures small { result ≤ 15 }
    ensures fits { BlockFits width result block.now }
    ensures least { (e : ℕ) → e < result → BlockFits width e block.now → ⊥ }
    ensures value { result ≡ exponent_of width block.now }
{
    let digits = 16 - longest(block).leading_zeros() as u8;
    (digits + 1).saturating_sub(width)
}
