// One more cell in the combined cell of its place.
ghost use Rattle.std.specs.Prelude.{◌≡◌, ℕ, ◌<◌, ◌+◌};
ghost use Rattle.bfp_codec.specs.declared.samples.Wide.{Wide};
ghost use Rattle.shared_cell.specs.Joined.{opened, joined, joined_or_left, may_join, summed, plus, IsWithin, AreWithin, IsBounded};

use crate::{Mixed, Sum};
use air_source::AirCell;
use bfp_codec::Wide;

/// The combined cell of a cell's place before any samples.
pub fn opened(c: &AirCell) -> Mixed
    ensures value { result ≡ opened c.now }
    ensures bounded { IsBounded result }
{
    Mixed {
        at: c.at,
        id: c.id,
        slot: c.slot,
        symbol: c.symbol,
        prb: c.prb,
        section: c.section,
        mask: c.mask,
        units: 0,
        sums: [Sum { i: 0, q: 0 }; 12],
    }
}

// A sum with one more sample.
fn plus(sum: Sum, sample: Wide) -> Sum
    requires { IsWithin 7 sum }
    ensures value { result ≡ plus sum sample }
    ensures within { (n : ℕ) → IsWithin n sum → IsWithin (n + 1) result }
{
    Sum {
        i: sum.i + i64::from(sample.i),
        q: sum.q + i64::from(sample.q),
    }
}

// Adds the samples of the mask's elements to their sums.
fn add_samples(mask: u16, block: &[Wide; 12], sums: &mut [Sum; 12])
    requires { AreWithin 7 sums.old }
    ensures value { sums.new ≡ summed mask block.now sums.old }
    ensures within { (n : ℕ) → AreWithin n sums.old → AreWithin (n + 1) sums.new }
{
    for k in 0..12 {
        if (mask >> (11 - k)) & 1 == 1 {
            sums[k] = plus(sums[k], block[k]);
        }
    }
}

/// Joins a cell to the combined cell of its place, of which fewer than 8 units have samples.
pub fn join(mixed: &mut Mixed, c: &AirCell)
    requires room { mixed.old.units < 8 }
    requires bounded { IsBounded mixed.old }
    ensures value { mixed.new ≡ joined c.now mixed.old }
    ensures bounded { IsBounded mixed.new }
{
    if let Some(block) = &c.block {
        mixed.units += 1;
        add_samples(mixed.mask, block, &mut mixed.sums);
    }
}

// Whether a cell may be joined to a combined cell: fewer than 8 units have samples there, and time, section and mask agree.
fn may_join(mixed: &Mixed, c: &AirCell) -> bool
    ensures { result ≡ may_join c.now mixed.now }
{
    mixed.units < 8 && c.at == mixed.at && c.section == mixed.section && c.mask == mixed.mask
}

/// Joins a cell to the combined cell of its place where it may be joined, and changes nothing else.
pub fn join_or_leave(mixed: &mut Mixed, c: &AirCell)
    requires { IsBounded mixed.old }
    ensures value { mixed.new ≡ joined_or_left c.now mixed.old }
    ensures bounded { IsBounded mixed.new }
{
    if may_join(mixed, c) {
        join(mixed, c);
    }
}
