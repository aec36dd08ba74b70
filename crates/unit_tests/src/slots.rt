// One endpoint of 4 PRBs, with the usual windows at 30 kHz and with the greatest at 240 kHz; commands and data of many slots. A slot
// has 768000000 ticks at 30 kHz. At 240 kHz one has 122752 Tc, of 781.25 ticks each, and the first and the ninth of a subframe have
// 1024 Tc more.
ghost use Rattle.window_config.specs.Limits.{IsWithinLimits};
ghost use Rattle.ru_buffers.specs.Calls.{HasGivenPast, StandsForSome};

use crate::samples::{COMMAND, DATA, cell, config, endpoint, samples};
use crate::steps::{cell_heard, hand, has_counted, made, step};
use air_source::{AirFault, MemoryAir};
use eaxc_map::Widths;
use fault_counters::Counter;
use fh_base::{List, Numerology, Slot, Ticks};
use ru_buffers::Ru;
use std::test::Fail;
use window_config::{Delays, Range, ring_slots, ru_reach};

const START: i64 = 15_360_000_000;

/// Windows of 2 ms.
fn widest() -> Delays
    ensures { IsWithinLimits result }
{
    let widest = Range {
        min: 1,
        max: 2_000_000,
    };
    Delays {
        t1a_up: widest,
        t1a_cp_ul: widest,
        t2a_up: widest,
        t2a_cp_ul: widest,
        ta3: widest,
        ta4: widest,
        advance: 2_000_000,
        ..Delays::usual()
    }
}

/// How many slots a ring of the unit has.
fn slots(n: &Numerology, delays: &Delays) -> usize
    requires { IsWithinLimits delays.now }
{
    let reach = ru_reach(delays);
    ring_slots(n, reach.before, reach.after)
}

/// The slot with a number from frame 1 on, at 30 kHz, and its start.
fn slot_30(k: u32) -> (Slot, Ticks) {
    let slot = Slot {
        frame: i64::from(k / 20),
        subframe: (k / 2 % 10) as u8,
        slot: (k % 2) as u8,
    };
    (
        Slot {
            frame: slot.frame.wrapping_add(1),
            ..slot
        },
        Ticks(START.wrapping_add(i64::from(k).wrapping_mul(768_000_000))),
    )
}

/// The same at 240 kHz.
fn slot_240(k: u32) -> (Slot, Ticks) {
    let slot = Slot {
        frame: i64::from(k / 160),
        subframe: (k / 16 % 10) as u8,
        slot: (k % 16) as u8,
    };
    let subframe = START.wrapping_add(i64::from(k / 16).wrapping_mul(1_536_000_000));
    let longer = if slot.slot == 0 {
        0
    } else if slot.slot <= 8 {
        800_000
    } else {
        1_600_000
    };
    let start = subframe.wrapping_add(i64::from(slot.slot).wrapping_mul(95_900_000));
    (
        Slot {
            frame: slot.frame.wrapping_add(1),
            ..slot
        },
        Ticks(start.wrapping_add(longer)),
    )
}

/// The frame for another slot.
fn command_of(slot: Slot) -> [u8; 24] {
    let mut frame = COMMAND;
    frame[9] = slot.frame.to_be_bytes()[7];
    frame[10] = (slot.subframe << 4) | (slot.slot >> 2);
    frame[11] = (slot.slot & 3) << 6;
    frame
}

/// Its eCPRI sequence is the slot's number in its frame, or so.
fn data_of(slot: Slot) -> [u8; 64] {
    let mut frame = DATA;
    frame[6] = (slot.subframe << 4) | slot.slot;
    frame[9] = slot.frame.to_be_bytes()[7];
    frame[10] = (slot.subframe << 4) | (slot.slot >> 2);
    frame[11] = (slot.slot & 3) << 6;
    frame
}

/// Command and data of a slot at 30 kHz, 400 us and 300 us before it, and then its report.
fn one_slot(unit: &mut Ru, k: u32, air: &mut MemoryAir) -> Result<(), AirFault>
    requires unit { StandsForSome unit.old }
    requires given { HasGivenPast unit.old }
    ensures unit { StandsForSome unit.new }
    ensures given { HasGivenPast unit.new }
{
    let (slot, start) = slot_30(k);
    step(unit, Ticks(start.0.wrapping_sub(614_400_000)), air)?;
    hand(unit, &command_of(slot));
    step(unit, Ticks(start.0.wrapping_sub(460_800_000)), air)?;
    hand(unit, &data_of(slot));
    step(unit, start, air)
}

/// The same for some slots in turn.
fn in_turn(unit: &mut Ru, many: u32, air: &mut MemoryAir) -> Result<(), AirFault>
    requires unit { StandsForSome unit.old }
    requires given { HasGivenPast unit.old }
{
    for k in 0..many {
        one_slot(unit, k, air)?;
    }
    Ok(())
}

/// A slot at 240 kHz begins: the command of the 48th after it is received, 3 ms before its slot, and the data of the 16th, 1 ms before.
fn one_short_slot(unit: &mut Ru, k: u32, air: &mut MemoryAir) -> Result<(), AirFault>
    requires unit { StandsForSome unit.old }
    requires given { HasGivenPast unit.old }
    ensures unit { StandsForSome unit.new }
    ensures given { HasGivenPast unit.new }
{
    step(unit, slot_240(k).1, air)?;
    hand(unit, &command_of(slot_240(k.wrapping_add(48)).0));
    if 32 <= k {
        hand(unit, &data_of(slot_240(k.wrapping_add(16)).0));
    }
    Ok(())
}

fn short_in_turn(unit: &mut Ru, many: u32, air: &mut MemoryAir) -> Result<(), AirFault>
    requires unit { StandsForSome unit.old }
    requires given { HasGivenPast unit.old }
{
    for k in 0..many {
        one_short_slot(unit, k, air)?;
    }
    Ok(())
}

/// A slot passes at 30 kHz, and in each hundredth a command for the next one is received.
fn one_of_many(unit: &mut Ru, k: u32, air: &mut MemoryAir) -> Result<(), AirFault>
    requires unit { StandsForSome unit.old }
    requires given { HasGivenPast unit.old }
    ensures unit { StandsForSome unit.new }
    ensures given { HasGivenPast unit.new }
{
    let (slot, start) = slot_30(k);
    if k % 100 != 99 {
        return step(unit, start, air);
    }
    step(unit, Ticks(start.0.wrapping_sub(614_400_000)), air)?;
    hand(unit, &command_of(slot));
    step(unit, start, air)
}

fn many_in_turn(unit: &mut Ru, many: u32, air: &mut MemoryAir) -> Result<(), AirFault>
    requires unit { StandsForSome unit.old }
    requires given { HasGivenPast unit.old }
{
    for k in 0..many {
        one_of_many(unit, k, air)?;
    }
    Ok(())
}

/// Whether an air heard the cells of these slots alone, each once and in order.
fn has_heard(air: &MemoryAir, many: u32) -> bool {
    for k in 0..many {
        let (slot, start) = slot_30(k);
        if cell_heard(air, k as usize) != Some(cell(start, slot, 0, Some(samples()))) {
            return false;
        }
    }
    air.heard().len() == many as usize
}

/// The same at 240 kHz, from the slot 48 on.
fn has_heard_short(air: &MemoryAir, many: u32) -> bool {
    for k in 0..many {
        let (slot, start) = slot_240(k.wrapping_add(48));
        if cell_heard(air, k as usize) != Some(cell(start, slot, 0, Some(samples()))) {
            return false;
        }
    }
    air.heard().len() == many as usize
}

/// A ring of 3 slots is used for 200 slots.
#[test]
fn slots_share_three_places(rt: HostRuntime) -> Result<(), Fail> {
    let alloc = rt.alloc();
    let n = Numerology::ordinary(1).expect(&rt, "30 kHz");
    assert_eq!(rt; slots(&n, &Delays::usual()), 3);
    let config = config(endpoint(0, n, 4), Widths::new(4, 4, 4, 4)?, Delays::usual());
    let mut unit = made(alloc, &config)?;
    let mut air = MemoryAir::new(alloc, List::new(alloc));
    assert_eq!(rt; in_turn(&mut unit, 200, &mut air), Ok(()));
    assert!(rt; has_heard(&air, 200));
    let wanted = [
        (Counter::Frames, 400),
        (Counter::Messages, 400),
        (Counter::CAccepted, 200),
        (Counter::FWhole, 200),
        (Counter::UTaken, 200),
        (Counter::Cells, 200),
    ];
    assert!(rt; has_counted(unit.counters(), &wanted));
    Ok(())
}

/// A ring of 98 slots is used for 300 slots, with 48 commands under way.
#[test]
fn slots_share_98_places(rt: HostRuntime) -> Result<(), Fail> {
    let alloc = rt.alloc();
    let n = Numerology::ordinary(4).expect(&rt, "240 kHz");
    assert_eq!(rt; slots(&n, &widest()), 98);
    let config = config(endpoint(0, n, 4), Widths::new(4, 4, 4, 4)?, widest());
    let mut unit = made(alloc, &config)?;
    let mut air = MemoryAir::new(alloc, List::new(alloc));
    assert_eq!(rt; short_in_turn(&mut unit, 300, &mut air), Ok(()));
    assert!(rt; has_heard_short(&air, 252));
    let wanted = [
        (Counter::Frames, 568),
        (Counter::Messages, 568),
        (Counter::CAccepted, 300),
        (Counter::FWhole, 268),
        (Counter::UTaken, 268),
        (Counter::Cells, 252),
    ];
    assert!(rt; has_counted(unit.counters(), &wanted));
    Ok(())
}

/// 50 s pass, in which 1000 cells have no data.
#[test]
fn many_slots_pass(rt: HostRuntime) -> Result<(), Fail> {
    let alloc = rt.alloc();
    let n = Numerology::ordinary(1).expect(&rt, "30 kHz");
    let config = config(endpoint(0, n, 4), Widths::new(4, 4, 4, 4)?, Delays::usual());
    let mut unit = made(alloc, &config)?;
    let mut air = MemoryAir::new(alloc, List::new(alloc));
    assert_eq!(rt; many_in_turn(&mut unit, 100_000, &mut air), Ok(()));
    assert_eq!(rt; unit.clock(), slot_30(99_999).1);
    assert_eq!(rt; air.heard().len(), 1_000);
    let wanted = [
        (Counter::Frames, 1_000),
        (Counter::Messages, 1_000),
        (Counter::CAccepted, 1_000),
        (Counter::Missing, 1_000),
    ];
    assert!(rt; has_counted(unit.counters(), &wanted));
    Ok(())
}
