// The frames that the tests deliver, and what they look for in an air and in the counters. The endpoint is that of `sample_plans`,
// with id 0 and 4 PRBs that are not compressed. The bytes and the moments are worked out by hand: a nanosecond has 1536 ticks, and
// frame 1 begins at 10 ms, which is tick 15360000000.
ghost use Rattle.std.specs.Prelude.{IfSome};
ghost use Rattle.window_config.specs.Configs.{IsConfig};
ghost use Rattle.window_config.specs.Limits.{IsWithinLimits};

use crate::sample_plans::{config, endpoint};
use air_source::{AirCell, Event, MemoryAir, Side};
use bfp_codec::Wide;
use du_intake::Delivered;
use eaxc_map::Widths;
use fault_counters::{Counter, Counters};
use fh_base::{Numerology, Slot, Ticks};
use window_config::{Config, Delays};

/// The start of symbol 0 of frame 1 at 30 kHz.
pub(crate) const START: Ticks = Ticks(15_360_000_000);

/// 49,999 ns, 50 us and 271 us after it: Ta4 is usually from 50 to 271 us.
pub(crate) const EARLY: Ticks = Ticks(15_436_798_464);

pub(crate) const FIRST: Ticks = Ticks(15_436_800_000);

pub(crate) const LAST: Ticks = Ticks(15_776_256_000);

/// One message was read.
pub(crate) const READ: Option<Delivered> = Some(Delivered {
    messages: 1,
    refusal: None,
});

/// A downlink command: symbol 0 of frame 1, section 1, all elements of PRB 0.
pub(crate) const COMMAND: [u8; 24] = [
    0x10, 0x02, 0x00, 0x14, 0x00, 0x00, 0x00, 0x80, 0x90, 0x01, 0x00, 0x00, 0x01, 0x01, 0x00, 0x00,
    0x00, 0x10, 0x00, 0x01, 0xff, 0xf1, 0x00, 0x00,
];

/// A message of uplink data of symbol 0 of frame 1: one PRB of a section, whose first sample is (value, 0) and whose others are 0.
#[derive(Clone, Copy)]
pub(crate) struct Data {
    pub(crate) sequence: u8,
    pub(crate) section: u8,
    pub(crate) prb: u8,
    pub(crate) value: u8,
}

/// Data of section 5 and PRB 0, all samples 0.
pub(crate) const DATA: Data = Data {
    sequence: 0,
    section: 5,
    prb: 0,
    value: 0,
};

impl Data {
    /// The message in one frame.
    pub(crate) fn frame(&self) -> [u8; 64] {
        let mut frame = [0; 64];
        frame[0] = 0x10;
        frame[3] = 0x3c;
        frame[6] = self.sequence;
        frame[7] = 0x80;
        frame[8] = 0x10;
        frame[9] = 0x01;
        frame[12] = self.section >> 4;
        frame[13] = self.section << 4;
        frame[14] = self.prb;
        frame[15] = 0x01;
        frame[17] = self.value;
        frame
    }

    /// The first of its two fragments: the headers and 16 bytes of samples.
    pub(crate) fn first_piece(&self) -> [u8; 32] {
        let whole = self.frame();
        let mut frame = [0; 32];
        for k in 0..32usize {
            frame[k] = whole[k];
        }
        frame[3] = 0x1c;
        frame[7] = 0x00;
        frame
    }

    /// The last of its two fragments: 32 bytes of samples, all 0.
    pub(crate) fn last_piece(&self) -> [u8; 40] {
        let mut frame = [0; 40];
        frame[0] = 0x10;
        frame[3] = 0x24;
        frame[6] = self.sequence;
        frame[7] = 0x81;
        frame
    }
}

/// A configuration of one endpoint of 30 kHz.
pub(crate) fn at_30_khz(delays: Delays) -> Option<Config>
    requires { IsWithinLimits delays }
    ensures { IfSome result IsConfig }
{
    let numerology = Numerology::ordinary(1)?;
    let widths = Widths::new(4, 4, 4, 4).ok()?;
    Some(config(endpoint(numerology), widths, delays))
}

/// The samples of a message.
pub(crate) fn block(value: u8) -> Option<[Wide; 12]> {
    let mut samples = [Wide { i: 0, q: 0 }; 12];
    samples[0].i = i32::from(value);
    Some(samples)
}

/// A cell of symbol 0 of frame 1 and section 5, with these elements and samples.
pub(crate) fn cell(prb: u16, mask: u16, block: Option<[Wide; 12]>) -> AirCell {
    AirCell {
        side: Side::Du,
        at: START,
        id: 0,
        slot: Slot {
            frame: 1,
            subframe: 0,
            slot: 0,
        },
        symbol: 0,
        prb,
        section: 5,
        mask,
        block,
    }
}

/// The cell that was heard with an index.
pub(crate) fn heard(air: &MemoryAir, i: usize) -> Option<AirCell> {
    match air.heard().get(i) {
        Some(Event::Cell(cell)) => Some(*cell),
        _ => None,
    }
}

/// Whether these counters alone are above 0, at these values.
pub(crate) fn has_counted(counters: &Counters, wanted: &[(Counter, u64)]) -> bool {
    for counter in Counter::all() {
        let mut value = 0;
        for (other, times) in wanted {
            if *other == counter {
                value = *times;
            }
        }
        if counters.get(counter) != value {
            return false;
        }
    }
    true
}
