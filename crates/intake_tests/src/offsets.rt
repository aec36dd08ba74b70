// Offset endpoints of 30 kHz, of section type 3: a slot's symbols start timeOffset Ts after the slot, of 50,000 ticks each, and every
// symbol is 2048 and cpLength halves of Ts long. Ta4 is from 76,800,000 to 416,256,000 ticks. All is worked out by hand.
ghost use Rattle.std.specs.Prelude.{◌≡◌, ◌<◌, ◌^◌, pos, IfSome};
ghost use Rattle.window_config.specs.Configs.{IsConfig};
ghost use Rattle.window_config.specs.Plans.{IsPlanLine};

use crate::sample_plans::{config, endpoint, line, one, two};
use crate::samples::{DATA, Data, READ, block, has_counted, heard};
use crate::steps::{close, made, step};
use air_source::{AirCell, MemoryAir, Side};
use bfp_codec::Wide;
use eaxc_map::Widths;
use fault_counters::Counter;
use fh_base::{List, Numerology, Slot, Ticks};
use std::test::Fail;
use window_config::{Config, Delays, PlanLine};

/// A configuration of one offset endpoint of 30 kHz, with the usual times.
fn offset(time_offset: u16, cp_length: u16) -> Option<Config>
    ensures { IfSome result IsConfig }
{
    let numerology = Numerology::offset(1, time_offset, cp_length)?;
    let widths = Widths::new(4, 4, 4, 4).ok()?;
    Some(config(endpoint(numerology), widths, Delays::usual()))
}

/// Slot 0 or 1 of frame 1.
fn slot_of(slot: u8) -> Slot
    ensures { result ≡ record { frame = pos 1; subframe = 0; slot = slot } }
{
    Slot {
        frame: 1,
        subframe: 0,
        slot,
    }
}

/// A line of PRB 0 of slot 0 or 1 of frame 1: these symbols.
fn symbols(slot: u8, symbol: u8, count: u8) -> PlanLine
    requires slot { slot < 2 }
    requires symbol { symbol < 14 }
    requires count { count < 2 ^ 4 }
    ensures { IsPlanLine result }
{
    PlanLine {
        slot: slot_of(slot),
        symbol,
        count,
        ..line()
    }
}

/// Data of PRB 0 of a symbol of slot 0 or 1 of frame 1.
fn data_of(slot: u8, symbol: u8, data: Data) -> [u8; 64] {
    let mut frame = data.frame();
    frame[11] = (slot << 6) | symbol;
    frame
}

/// The cell of PRB 0 of a symbol that starts then.
fn cell_of(at: i64, slot: u8, symbol: u8, block: Option<[Wide; 12]>) -> Option<AirCell> {
    Some(AirCell {
        side: Side::Du,
        at: Ticks(at),
        id: 0,
        slot: slot_of(slot),
        symbol,
        prb: 0,
        section: 5,
        mask: 0xfff,
        block,
    })
}

/// timeOffset 1000 and cpLength 100: symbol 2 of slot 1 starts 768,000,000 + 50,000,000 + 2 * 53,700,000 ticks after frame 1. Data
/// of it are early a nanosecond before Ta4's minimum, taken at the minimum, and a repeat at the maximum, when the cell is shown.
#[test]
fn a_symbol_starts_by_the_time_offset(rt: HostRuntime) -> Result<(), Fail> {
    let alloc = rt.alloc();
    let config = offset(1_000, 100).expect(&rt, "an offset endpoint");
    let mut unit = made(alloc, &config, &one(alloc, symbols(1, 2, 1))?)?;
    let mut air = MemoryAir::new(alloc, List::new(alloc));
    let early = Data { value: 1, ..DATA };
    let first = Data {
        sequence: 1,
        value: 2,
        ..DATA
    };
    let last = Data {
        sequence: 2,
        value: 3,
        ..DATA
    };
    let moment = Ticks(16_701_656_000);
    assert!(rt; unit.due() == Some(moment));
    assert_eq!(rt;
        step(&mut unit, Ticks(16_362_198_464), &data_of(1, 2, early)),
        READ
    );
    assert_eq!(rt;
        step(&mut unit, Ticks(16_362_200_000), &data_of(1, 2, first)),
        READ
    );
    assert_eq!(rt; step(&mut unit, moment, &data_of(1, 2, last)), READ);
    assert_eq!(rt; close(&mut unit, moment, &mut air), Ok(()));
    assert_eq!(rt; air.heard().len(), 1);
    assert_eq!(rt; heard(&air, 0), cell_of(16_285_400_000, 1, 2, block(2)));
    let wanted = [
        (Counter::Frames, 3),
        (Counter::Messages, 3),
        (Counter::FWhole, 3),
        (Counter::UEarly, 1),
        (Counter::UTaken, 1),
        (Counter::URepeat, 1),
        (Counter::Cells, 1),
    ];
    assert!(rt; has_counted(unit.counters(), &wanted));
    Ok(())
}

/// cpLength 65,535: a symbol is 1,689,575,000 ticks long, more than two slots. Symbol 1 of slot 0 is after symbol 0 of slot 1, and
/// shows its own data.
#[test]
fn slots_overlap(rt: HostRuntime) -> Result<(), Fail> {
    let alloc = rt.alloc();
    let config = offset(1_000, 65_535).expect(&rt, "an offset endpoint");
    let lines = two(alloc, symbols(0, 0, 2), symbols(1, 0, 1))?;
    let mut unit = made(alloc, &config, &lines)?;
    let mut air = MemoryAir::new(alloc, List::new(alloc));
    let second = Data { value: 2, ..DATA };
    let third = Data { value: 3, ..DATA };
    assert!(rt; unit.due() == Some(Ticks(15_826_256_000)));
    assert_eq!(rt; close(&mut unit, Ticks(15_826_256_000), &mut air), Ok(()));
    assert!(rt; unit.due() == Some(Ticks(16_594_256_000)));
    assert_eq!(rt;
        step(&mut unit, Ticks(16_300_000_000), &data_of(1, 0, second)),
        READ
    );
    assert_eq!(rt; close(&mut unit, Ticks(16_594_256_000), &mut air), Ok(()));
    assert!(rt; unit.due() == Some(Ticks(17_515_831_000)));
    assert_eq!(rt;
        step(&mut unit, Ticks(17_200_000_000), &data_of(0, 1, third)),
        READ
    );
    assert_eq!(rt; close(&mut unit, Ticks(17_515_831_000), &mut air), Ok(()));
    assert!(rt; unit.due() == None);
    assert_eq!(rt; air.heard().len(), 3);
    assert_eq!(rt; heard(&air, 0), cell_of(15_410_000_000, 0, 0, None));
    assert_eq!(rt; heard(&air, 1), cell_of(16_178_000_000, 1, 0, block(2)));
    assert_eq!(rt; heard(&air, 2), cell_of(17_099_575_000, 0, 1, block(3)));
    Ok(())
}
