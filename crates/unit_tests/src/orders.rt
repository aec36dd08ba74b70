// One endpoint of 4 PRBs at 30 kHz, and six frames of one cell in each of their 720 orders: the unit in fixed memory agrees with the
// plain program of `plain_units`, which keeps all that was received.
ghost use Rattle.std.specs.Prelude.{◌≡◌, ◌<◌, IfOk, All};
ghost use Rattle.window_config.specs.Configs.{IsConfig};
ghost use Rattle.unit_model.specs.Proper.{IsTime};
ghost use Rattle.plain_units.specs.declared.report.TimedFrame.{TimedFrame as SpecFrame};
ghost use Rattle.ru_buffers.specs.Calls.{HasGivenPast, StandsForSome};

use crate::samples::{COMMAND, DATA, config, endpoint};
use crate::steps::{cell_heard, hand, made, pass, step};
use air_source::{AirFault, MemoryAir};
use eaxc_map::Widths;
use fault_counters::{Counter, Counters};
use fh_base::{Bytes, List, NoMemory, Numerology, Ticks};
use plain_units::{Report, TimedFrame, plain_ru};
use ru_buffers::{Ru, UplinkJob};
use std::alloc::Global;
use std::test::Fail;
use window_config::{Config, Delays};

/// A time after all symbols that the frames name.
const END: Ticks = Ticks(15_460_000_000);

/// Data of section 1 for PRB 0 of symbol 0 of frame 1, all of whose samples are (16, 16), in another message.
const OTHER_DATA: [u8; 64] = [
    0x10, 0x00, 0x00, 0x3c, 0x00, 0x00, 0x01, 0x80, 0x90, 0x01, 0x00, 0x00, 0x00, 0x10, 0x00, 0x01,
    0x00, 0x10, 0x00, 0x10, 0x00, 0x10, 0x00, 0x10, 0x00, 0x10, 0x00, 0x10, 0x00, 0x10, 0x00, 0x10,
    0x00, 0x10, 0x00, 0x10, 0x00, 0x10, 0x00, 0x10, 0x00, 0x10, 0x00, 0x10, 0x00, 0x10, 0x00, 0x10,
    0x00, 0x10, 0x00, 0x10, 0x00, 0x10, 0x00, 0x10, 0x00, 0x10, 0x00, 0x10, 0x00, 0x10, 0x00, 0x10,
];

/// An uplink command: the symbols 0 and 1 of frame 1, section 5, all elements of PRB 1.
const UPLINK: [u8; 24] = [
    0x10, 0x02, 0x00, 0x14, 0x00, 0x00, 0x00, 0x80, 0x10, 0x01, 0x00, 0x00, 0x01, 0x01, 0x00, 0x00,
    0x00, 0x50, 0x01, 0x01, 0xff, 0xf2, 0x00, 0x00,
];

/// When the six frames are received: the first five on time, the last too late.
fn time_of(place: usize) -> Ticks
    ensures { IsTime result.0 }
{
    match place {
        0 => Ticks(14_745_600_000),
        1 => Ticks(14_776_320_000),
        2 => Ticks(14_899_200_000),
        3 => Ticks(14_929_920_000),
        4 => Ticks(14_960_640_000),
        _ => Ticks(15_283_200_000),
    }
}

/// The bytes of one of the six frames.
fn bytes_of(which: usize) -> &'static [u8] {
    match which {
        0 => &COMMAND,
        1 => &DATA,
        2 => &COMMAND,
        3 => &OTHER_DATA,
        4 => &UPLINK,
        _ => &COMMAND[..23],
    }
}

/// The frame at a place of an order: the digit-th of those that were not used.
fn pick(used: &mut [bool; 6], digit: u32) -> usize {
    let mut left = digit;
    for k in 0..6usize {
        if !used[k] {
            if left == 0 {
                used[k] = true;
                return k;
            }
            left -= 1;
        }
    }
    0
}

/// One of the 720 orders of the six frames.
fn order(number: u32) -> [usize; 6] {
    let mut used = [false; 6];
    [
        pick(&mut used, number / 120 % 6),
        pick(&mut used, number / 24 % 5),
        pick(&mut used, number / 6 % 4),
        pick(&mut used, number / 2 % 3),
        pick(&mut used, number % 2),
        pick(&mut used, 0),
    ]
}

fn timed(alloc: Global, number: u32, place: usize) -> Result<TimedFrame, NoMemory>
    requires { place < 6 }
    ensures { IfOk result (λ f. IsTime f.at.0) }
{
    let mut frame = Bytes::new(alloc);
    frame.push_all(bytes_of(order(number)[place]))?;
    Ok(TimedFrame {
        at: time_of(place),
        frame,
    })
}

/// The six frames in an order, each at its place's time.
fn frames(alloc: Global, number: u32) -> Result<Vec<TimedFrame>, NoMemory>
    ensures { IfOk result (λ all. All (λ (f : SpecFrame). IsTime f.at.0) all.items) }
{
    let first = timed(alloc, number, 0)?;
    let second = timed(alloc, number, 1)?;
    let third = timed(alloc, number, 2)?;
    let fourth = timed(alloc, number, 3)?;
    let fifth = timed(alloc, number, 4)?;
    let sixth = timed(alloc, number, 5)?;
    let mut frames = Vec::new(alloc);
    frames.push(first)?;
    frames.push(second)?;
    frames.push(third)?;
    frames.push(fourth)?;
    frames.push(fifth)?;
    frames.push(sixth)?;
    Ok(frames)
}

/// Lets the unit's clock reach a frame, and delivers it.
fn one_frame(unit: &mut Ru, f: &TimedFrame, air: &mut MemoryAir) -> Result<(), AirFault>
    requires unit { StandsForSome unit.old }
    requires given { HasGivenPast unit.old }
    ensures unit { StandsForSome unit.new }
    ensures given { HasGivenPast unit.new }
{
    step(unit, f.at, air)?;
    hand(unit, f.frame.as_slice());
    Ok(())
}

/// Delivers frames, each when the unit's clock reaches it.
fn all_frames(unit: &mut Ru, frames: &[TimedFrame], air: &mut MemoryAir) -> Result<(), AirFault>
    requires unit { StandsForSome unit.old }
    requires given { HasGivenPast unit.old }
    ensures unit { StandsForSome unit.new }
    ensures given { HasGivenPast unit.new }
{
    for f in frames {
        one_frame(unit, f, air)?;
    }
    Ok(())
}

fn same_cells(air: &MemoryAir, report: &Report) -> bool {
    for k in 0..report.cells.len() {
        if cell_heard(air, k) != report.cells.get(k).copied() {
            return false;
        }
    }
    air.heard().len() == report.cells.len()
}

fn same_counters(a: &Counters, b: &Counters) -> bool {
    for counter in Counter::all() {
        if a.get(counter) != b.get(counter) {
            return false;
        }
    }
    true
}

fn same_messages(unit: &mut Ru, jobs: &List<UplinkJob>) -> bool {
    for k in 0..jobs.len() {
        if unit.next_uplink() != jobs.get(k).copied() {
            return false;
        }
    }
    unit.next_uplink().is_none()
}

/// How many cells and messages an order has, where the unit and the plain program agree on them.
fn compared(alloc: Global, config: &Config, number: u32) -> Result<Option<(usize, usize)>, NoMemory>
    requires { IsConfig config.now }
{
    let frames = frames(alloc, number)?;
    let report = plain_ru(alloc, config, &frames, END)?;
    let mut unit = made(alloc, config)?;
    let mut air = MemoryAir::new(alloc, List::new(alloc));
    let came = all_frames(&mut unit, &frames, &mut air);
    let passed = pass(&mut unit, END, &mut air);
    let same = same_cells(&air, &report)
        && same_counters(unit.counters(), &report.counters)
        && same_messages(&mut unit, &report.jobs);
    if same && came == Ok(()) && passed == Ok(()) {
        Ok(Some((report.cells.len(), report.jobs.len())))
    } else {
        Ok(None)
    }
}

/// Whether all orders that begin with one of the frames have an answer on which the unit and the plain program agree.
fn begin_with(alloc: Global, config: &Config, which: u32) -> Result<bool, NoMemory>
    requires { IsConfig config.now }
{
    for number in 0..120 {
        let same = compared(alloc, config, which.wrapping_mul(120).wrapping_add(number))?;
        if same.is_none() {
            return Ok(false);
        }
    }
    Ok(true)
}

/// The first order of the six frames: the first data fill the cell, and the cut frame is refused.
#[test]
fn six_frames(rt: HostRuntime) -> Result<(), Fail> {
    let alloc = rt.alloc();
    let n = Numerology::ordinary(1).expect(&rt, "30 kHz");
    let config = config(endpoint(0, n, 4), Widths::new(4, 4, 4, 4)?, Delays::usual());
    assert_eq!(rt; compared(alloc, &config, 0)?, Some((1, 2)));
    Ok(())
}

#[test]
fn orders_that_begin_with_a_command(rt: HostRuntime) -> Result<(), Fail> {
    let alloc = rt.alloc();
    let n = Numerology::ordinary(1).expect(&rt, "30 kHz");
    let config = config(endpoint(0, n, 4), Widths::new(4, 4, 4, 4)?, Delays::usual());
    assert!(rt; begin_with(alloc, &config, 0)?);
    Ok(())
}

#[test]
fn orders_that_begin_with_data(rt: HostRuntime) -> Result<(), Fail> {
    let alloc = rt.alloc();
    let n = Numerology::ordinary(1).expect(&rt, "30 kHz");
    let config = config(endpoint(0, n, 4), Widths::new(4, 4, 4, 4)?, Delays::usual());
    assert!(rt; begin_with(alloc, &config, 1)?);
    Ok(())
}

#[test]
fn orders_that_begin_with_the_repeat(rt: HostRuntime) -> Result<(), Fail> {
    let alloc = rt.alloc();
    let n = Numerology::ordinary(1).expect(&rt, "30 kHz");
    let config = config(endpoint(0, n, 4), Widths::new(4, 4, 4, 4)?, Delays::usual());
    assert!(rt; begin_with(alloc, &config, 2)?);
    Ok(())
}

#[test]
fn orders_that_begin_with_other_data(rt: HostRuntime) -> Result<(), Fail> {
    let alloc = rt.alloc();
    let n = Numerology::ordinary(1).expect(&rt, "30 kHz");
    let config = config(endpoint(0, n, 4), Widths::new(4, 4, 4, 4)?, Delays::usual());
    assert!(rt; begin_with(alloc, &config, 3)?);
    Ok(())
}

#[test]
fn orders_that_begin_with_the_uplink(rt: HostRuntime) -> Result<(), Fail> {
    let alloc = rt.alloc();
    let n = Numerology::ordinary(1).expect(&rt, "30 kHz");
    let config = config(endpoint(0, n, 4), Widths::new(4, 4, 4, 4)?, Delays::usual());
    assert!(rt; begin_with(alloc, &config, 4)?);
    Ok(())
}

#[test]
fn orders_that_begin_with_the_cut_frame(rt: HostRuntime) -> Result<(), Fail> {
    let alloc = rt.alloc();
    let n = Numerology::ordinary(1).expect(&rt, "30 kHz");
    let config = config(endpoint(0, n, 4), Widths::new(4, 4, 4, 4)?, Delays::usual());
    assert!(rt; begin_with(alloc, &config, 5)?);
    Ok(())
}
