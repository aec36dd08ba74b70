// The cells that are added and marked.
ghost use Rattle.std.specs.Prelude.{◌≡◌};
ghost use Rattle.bench_units.specs.Cells.{cell_of};

use air_source::{AirCell, Side};
use bfp_codec::Wide;
use fh_base::{Slot, Ticks};

/// Cell k of a unit: PRB after PRB of 106, symbol after symbol of 14, slot after slot of 20 a frame.
pub fn cell(k: u32) -> AirCell
    ensures { result ≡ cell_of k }
{
    AirCell {
        side: Side::Du,
        at: Ticks(0),
        id: 2,
        slot: Slot {
            frame: i64::from(k / 29_680),
            subframe: (k / 2_968 % 10) as u8,
            slot: (k / 1_484 % 2) as u8,
        },
        symbol: (k / 106 % 14) as u8,
        prb: (k % 106) as u16,
        section: 17,
        mask: 0xfff,
        block: Some([Wide { i: 5, q: -7 }; 12]),
    }
}
