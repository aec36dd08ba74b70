// One endpoint of 106 PRBs at 30 kHz, whose frame 1 begins at 10 ms, which is tick 15360000000. Its symbol 0 is 71168 Tc long, of
// 781.25 ticks each, and the next symbols 70144 Tc. A downlink command is on time from 470 to 259 us before its symbol, data from
// 345 to 134 us, and an uplink command from 470 to 125 us. The bytes, the moments and the counters are worked out by hand.
use crate::samples::{COMMAND, DATA, cell, config, endpoint, samples};
use crate::steps::{READ, cell_heard, hand, has_counted, made, pass, step, stops, take};
use air_source::MemoryAir;
use eaxc_map::Widths;
use fault_counters::Counter;
use fh_base::{List, Numerology, Slot, Ticks};
use ru_buffers::UplinkJob;
use std::test::Fail;
use window_config::Delays;

/// The same command for the symbols 0 and 1.
const TWO_SYMBOLS: [u8; 24] = [
    0x10, 0x02, 0x00, 0x14, 0x00, 0x00, 0x00, 0x80, 0x90, 0x01, 0x00, 0x00, 0x01, 0x01, 0x00, 0x00,
    0x00, 0x10, 0x00, 0x01, 0xff, 0xf2, 0x00, 0x00,
];

/// An uplink command: the symbols 0, 1 and 2 of frame 1, section 5, all elements of PRB 0.
const UPLINK: [u8; 24] = [
    0x10, 0x02, 0x00, 0x14, 0x00, 0x00, 0x00, 0x80, 0x10, 0x01, 0x00, 0x00, 0x01, 0x01, 0x00, 0x00,
    0x00, 0x50, 0x00, 0x01, 0xff, 0xf3, 0x00, 0x00,
];

/// 9.6 ms and 9.7 ms, and the starts of the symbols 0, 1 and 2 of frame 1.
const FIRST: Ticks = Ticks(14_745_600_000);

const SECOND: Ticks = Ticks(14_899_200_000);

const START: Ticks = Ticks(15_360_000_000);

const SYMBOL_1: Ticks = Ticks(15_415_600_000);

const SYMBOL_2: Ticks = Ticks(15_470_400_000);

const SLOT: Slot = Slot {
    frame: 1,
    subframe: 0,
    slot: 0,
};

fn job(s: Ticks, symbol: u8) -> UplinkJob {
    UplinkJob {
        ep: 0,
        s,
        slot: SLOT,
        symbol,
        filter: 0,
        section: 5,
        start_prb: 0,
        num_prb: 1,
    }
}

/// Each call once: a command at 9.6 ms and its data at 9.7 ms, for the cell that radiates at 10 ms.
#[test]
fn a_commanded_cell_radiates(rt: HostRuntime) -> Result<(), Fail> {
    let alloc = rt.alloc();
    let n = Numerology::ordinary(1).expect(&rt, "30 kHz");
    let config = config(
        endpoint(0, n, 106),
        Widths::new(4, 4, 4, 4)?,
        Delays::usual(),
    );
    let mut unit = made(alloc, &config)?;
    let mut air = MemoryAir::new(alloc, List::new(alloc));
    assert_eq!(rt; unit.clock(), Ticks(-15_360_000_000));
    assert_eq!(rt; unit.due(), None);
    assert_eq!(rt; step(&mut unit, FIRST, &mut air), Ok(()));
    assert_eq!(rt; unit.clock(), FIRST);
    assert_eq!(rt; hand(&mut unit, &COMMAND), READ);
    assert_eq!(rt; unit.due(), Some(START));
    assert_eq!(rt; step(&mut unit, SECOND, &mut air), Ok(()));
    assert_eq!(rt; hand(&mut unit, &DATA), READ);
    assert_eq!(rt; air.heard().len(), 0);
    assert_eq!(rt; step(&mut unit, START, &mut air), Ok(()));
    assert_eq!(rt; unit.clock(), START);
    assert_eq!(rt; unit.due(), None);
    assert_eq!(rt; unit.next_uplink(), None);
    assert_eq!(rt; air.heard().len(), 1);
    assert_eq!(rt;
        cell_heard(&air, 0),
        Some(cell(START, SLOT, 0, Some(samples())))
    );
    let wanted = [
        (Counter::Frames, 2),
        (Counter::Messages, 2),
        (Counter::CAccepted, 1),
        (Counter::FWhole, 1),
        (Counter::UTaken, 1),
        (Counter::Cells, 1),
    ];
    assert!(rt; has_counted(unit.counters(), &wanted));
    Ok(())
}

/// The air stops in the first of two cells: it is the next to be reported, and the second has no data.
#[test]
fn a_cell_is_reported_again(rt: HostRuntime) -> Result<(), Fail> {
    let alloc = rt.alloc();
    let n = Numerology::ordinary(1).expect(&rt, "30 kHz");
    let config = config(
        endpoint(0, n, 106),
        Widths::new(4, 4, 4, 4)?,
        Delays::usual(),
    );
    let mut unit = made(alloc, &config)?;
    let mut fails = List::new(alloc);
    fails.push(1)?;
    let mut air = MemoryAir::new(alloc, fails);
    assert_eq!(rt; step(&mut unit, FIRST, &mut air), Ok(()));
    assert_eq!(rt; hand(&mut unit, &TWO_SYMBOLS), READ);
    assert_eq!(rt; step(&mut unit, SECOND, &mut air), Ok(()));
    assert_eq!(rt; hand(&mut unit, &DATA), READ);
    assert!(rt; stops(&mut unit, SYMBOL_1, &mut air));
    assert_eq!(rt; unit.clock(), SECOND);
    assert_eq!(rt; air.heard().len(), 0);
    assert_eq!(rt; unit.counters().get(Counter::Cells), 0);
    assert_eq!(rt; unit.counters().get(Counter::Missing), 0);
    assert_eq!(rt; pass(&mut unit, SYMBOL_1, &mut air), Ok(()));
    assert_eq!(rt; unit.clock(), SYMBOL_1);
    assert_eq!(rt; air.heard().len(), 2);
    assert_eq!(rt;
        cell_heard(&air, 0),
        Some(cell(START, SLOT, 0, Some(samples())))
    );
    assert_eq!(rt; cell_heard(&air, 1), Some(cell(SYMBOL_1, SLOT, 1, None)));
    let wanted = [
        (Counter::Frames, 2),
        (Counter::Messages, 2),
        (Counter::CAccepted, 1),
        (Counter::FWhole, 1),
        (Counter::UTaken, 1),
        (Counter::Cells, 1),
        (Counter::Missing, 1),
    ];
    assert!(rt; has_counted(unit.counters(), &wanted));
    Ok(())
}

/// A command of three symbols gives three messages, each when its symbol starts.
#[test]
fn each_message_is_given_once(rt: HostRuntime) -> Result<(), Fail> {
    let alloc = rt.alloc();
    let n = Numerology::ordinary(1).expect(&rt, "30 kHz");
    let config = config(
        endpoint(0, n, 106),
        Widths::new(4, 4, 4, 4)?,
        Delays::usual(),
    );
    let mut unit = made(alloc, &config)?;
    let mut air = MemoryAir::new(alloc, List::new(alloc));
    assert_eq!(rt; step(&mut unit, FIRST, &mut air), Ok(()));
    assert_eq!(rt; hand(&mut unit, &UPLINK), READ);
    assert_eq!(rt; unit.due(), Some(START));
    assert_eq!(rt; take(&mut unit), None);
    assert_eq!(rt; step(&mut unit, Ticks(START.0 - 1), &mut air), Ok(()));
    assert_eq!(rt; take(&mut unit), None);
    assert_eq!(rt; step(&mut unit, START, &mut air), Ok(()));
    assert_eq!(rt; unit.due(), Some(START));
    assert_eq!(rt; take(&mut unit), Some(job(START, 0)));
    assert_eq!(rt; take(&mut unit), None);
    assert_eq!(rt; unit.due(), Some(SYMBOL_1));
    assert_eq!(rt; pass(&mut unit, SYMBOL_2, &mut air), Ok(()));
    assert_eq!(rt; unit.due(), Some(SYMBOL_1));
    assert_eq!(rt; unit.next_uplink(), Some(job(SYMBOL_1, 1)));
    assert_eq!(rt; unit.next_uplink(), Some(job(SYMBOL_2, 2)));
    assert_eq!(rt; unit.next_uplink(), None);
    assert_eq!(rt; unit.due(), None);
    assert_eq!(rt; air.heard().len(), 0);
    let wanted = [
        (Counter::Frames, 1),
        (Counter::Messages, 1),
        (Counter::CAccepted, 1),
    ];
    assert!(rt; has_counted(unit.counters(), &wanted));
    Ok(())
}
