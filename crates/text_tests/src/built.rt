// What the tests build: cells, samples, and lists of calls.
use air_source::{AirCell, Side};
use bfp_codec::Wide;
use fh_base::{List, NoMemory, Slot, Ticks};
use std::alloc::Global;

/// The first slot of frame 1.
pub(crate) const SLOT: Slot = Slot {
    frame: 1,
    subframe: 0,
    slot: 0,
};

/// A downlink cell of that slot at symbol 0, missing.
pub(crate) fn missing(prb: u16) -> AirCell {
    AirCell {
        side: Side::Ru,
        at: Ticks(15_360_000_000),
        id: 0,
        slot: SLOT,
        symbol: 0,
        prb,
        section: 1,
        mask: 0xfff,
        block: None,
    }
}

/// The same with twelve samples (3, -3).
pub(crate) fn level(prb: u16) -> AirCell {
    AirCell {
        block: Some([Wide { i: 3, q: -3 }; 12]),
        ..missing(prb)
    }
}

/// The samples (0, 0), (1, -1) up to (11, -11).
pub(crate) fn ramp() -> [Wide; 12] {
    let mut block = [Wide { i: 0, q: 0 }; 12];
    for k in 0..12u8 {
        let i = i32::from(k);
        block[k as usize] = Wide { i, q: -i };
    }
    block
}

/// The calls with these numbers.
pub(crate) fn calls(alloc: Global, numbers: &[u64]) -> Result<List<u64>, NoMemory> {
    let mut list = List::new(alloc);
    for number in numbers {
        list.push(*number)?;
    }
    Ok(list)
}
