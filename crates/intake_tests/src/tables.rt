// Six frames, each at one of six times, over and over in other rows: the intake agrees with the plain program of `plain_units`, which
// keeps all that was received. The plan has two lines of section 5 at 30 kHz, of symbol 0 of frame 1: some elements of the PRBs 0 and 1,
// and others of PRB 0. Ta4 is from 50 to 271 us after its start. What two of the rows give is worked out by hand.
ghost use Rattle.std.specs.Prelude.{IfOk, IfSome, All};
ghost use Rattle.du_intake.specs.Closing.{IntakeStandsForSome};
ghost use Rattle.plain_units.specs.declared.report.TimedFrame.{TimedFrame as SpecFrame};
ghost use Rattle.unit_model.specs.Proper.{IsProperAllocation, IsTime};
ghost use Rattle.window_config.specs.Configs.{IsConfig};
ghost use Rattle.window_config.specs.Plans.{IsPlanLine};

use crate::sample_plans::{line, two};
use crate::samples::{COMMAND, DATA, Data, EARLY, FIRST, LAST, at_30_khz, heard};
use crate::steps::{close, close_before, made, step};
use air_source::{AirFault, MemoryAir};
use du_intake::Intake;
use fault_counters::{Counter, Counters};
use fh_base::{Bytes, List, NoMemory, Ticks};
use plain_units::{Report, TimedFrame, plain_du};
use plan_model::{PlannedLine, is_out_of_range, line_allocation};
use std::alloc::Global;
use std::test::Fail;
use unit_model::Allocation;
use window_config::{Config, Delays, EndpointConfig, PlanLine};

/// Some elements of the PRBs 0 and 1.
fn first_line() -> PlanLine
    ensures { IsPlanLine result }
{
    PlanLine {
        num_prb: 2,
        mask: 0xf00,
        ..line()
    }
}

/// Other elements of PRB 0.
fn second_line() -> PlanLine
    ensures { IsPlanLine result }
{
    PlanLine {
        mask: 0x00f,
        ..line()
    }
}

/// When the frame at a place of a row is received: 49,999 ns, 50 us, 100 us, 271 us, 271,001 ns and 400 us after the start.
fn time_of(place: usize) -> Ticks
    ensures { IsTime result.0 }
{
    match place {
        0 => EARLY,
        1 => FIRST,
        2 => Ticks(15_513_600_000),
        3 => LAST,
        4 => Ticks(15_776_257_536),
        _ => Ticks(15_974_400_000),
    }
}

/// 1 ms after the start.
const END: Ticks = Ticks(16_896_000_000);

/// A message of PRB 1, in two pieces.
const IN_PIECES: Data = Data {
    sequence: 9,
    prb: 1,
    value: 7,
    ..DATA
};

/// One of the six frames: data of PRB 0, the same of section 6, other data of PRB 0, two pieces of a message of PRB 1, and a command.
fn bytes_of(alloc: Global, which: u8) -> Result<Bytes, NoMemory> {
    let mut bytes = Bytes::new(alloc);
    match which {
        0 => bytes.push_all(&Data { value: 1, ..DATA }.frame())?,
        1 => bytes.push_all(&Data {
            sequence: 1,
            section: 6,
            ..DATA
        }
        .frame())?,
        2 => bytes.push_all(&Data {
            sequence: 2,
            value: 3,
            ..DATA
        }
        .frame())?,
        3 => bytes.push_all(&IN_PIECES.first_piece())?,
        4 => bytes.push_all(&IN_PIECES.last_piece())?,
        _ => bytes.push_all(&COMMAND)?,
    }
    Ok(bytes)
}

/// The frames of a row, each at its place's time.
fn frames_of(alloc: Global, row: [u8; 6]) -> Result<Vec<TimedFrame>, NoMemory>
    ensures { IfOk result (λ all. All (λ (f : SpecFrame). IsTime f.at.0) all.items) }
{
    let mut frames = Vec::new(alloc);
    for place in 0..6usize {
        frames.push(TimedFrame {
            at: time_of(place),
            frame: bytes_of(alloc, row[place])?,
        })?;
    }
    Ok(frames)
}

/// A row with a number: its digits to the base 6.
fn row_of(number: u32) -> [u8; 6] {
    let mut row = [0; 6];
    let mut left = number;
    for place in 0..6usize {
        row[place] = (left % 6) as u8;
        left /= 6;
    }
    row
}

/// What a line names at the first endpoint, where that has all of it.
fn named(endpoints: &[EndpointConfig], line: &PlanLine) -> Option<Allocation>
    requires { IsPlanLine line.now }
    ensures { IfSome result (IsProperAllocation endpoints.now) }
{
    let endpoint = *endpoints.get(0)?;
    if is_out_of_range(&endpoint, line) {
        return None;
    }
    Some(line_allocation(&PlannedLine {
        index: 0,
        ep: 0,
        endpoint,
        line: *line,
    }))
}

/// What the two lines name, the newest first.
fn claims(config: &Config) -> Option<[Allocation; 2]>
    ensures { IfSome result (λ claims. All (IsProperAllocation config.now.endpoints) claims) }
{
    let endpoints = config.endpoints.as_slice();
    let first = named(endpoints, &first_line())?;
    let second = named(endpoints, &second_line())?;
    Some([second, first])
}

/// Delivers frames, each when the cells of earlier moments are reported. Whether all of it may be done.
fn all_frames(unit: &mut Intake, frames: &[TimedFrame], air: &mut MemoryAir) -> bool
    requires unit { IntakeStandsForSome unit.old }
    requires times { All (λ (f : SpecFrame). IsTime f.at.0) frames.now }
    ensures { IntakeStandsForSome unit.new }
{
    for f in frames {
        if close_before(unit, f.at, air) != Ok(()) {
            return false;
        }
        if step(unit, f.at, f.frame.as_slice()).is_none() {
            return false;
        }
    }
    true
}

fn same_cells(air: &MemoryAir, report: &Report) -> bool {
    for k in 0..report.cells.len() {
        if heard(air, k) != report.cells.get(k).copied() {
            return false;
        }
    }
    air.heard().len() == report.cells.len()
}

fn same_counters(a: &Counters, b: &Counters) -> bool {
    for counter in Counter::all() {
        if a.get(counter) != b.get(counter) {
            return false;
        }
    }
    true
}

/// How many cells have samples and how many have none, where the intake and the plain program agree on a row.
fn compared(alloc: Global, config: &Config, row: [u8; 6]) -> Result<Option<(u64, u64)>, NoMemory>
    requires { IsConfig config.now }
{
    let Some(claims) = claims(config) else {
        return Ok(None);
    };
    let frames = frames_of(alloc, row)?;
    let report = plain_du(alloc, config, &claims, &frames, END)?;
    let lines = two(alloc, first_line(), second_line())?;
    let mut unit = made(alloc, config, &lines)?;
    let mut air = MemoryAir::new(alloc, List::new(alloc));
    let came = all_frames(&mut unit, &frames, &mut air);
    let closed = close(&mut unit, END, &mut air);
    let same = same_cells(&air, &report) && same_counters(unit.counters(), &report.counters);
    if came && closed == Ok(()) && same {
        let told = |counter| unit.counters().get(counter);
        Ok(Some((told(Counter::Cells), told(Counter::Missing))))
    } else {
        Ok(None)
    }
}

/// Whether they agree on so many rows from one number on, each 65 further.
fn agree(alloc: Global, config: &Config, from: u32, rows: u32) -> Result<bool, NoMemory>
    requires { IsConfig config.now }
{
    for k in 0..rows {
        let row = row_of(from.wrapping_add(k.wrapping_mul(65)));
        if compared(alloc, config, row)?.is_none() {
            return Ok(false);
        }
    }
    Ok(true)
}

/// Data too early, a block of section 6 at Ta4's minimum, a repeat, and a message that becomes whole too late: both cells are missing.
#[test]
fn a_row_without_samples(rt: HostRuntime) -> Result<(), Fail> {
    let alloc = rt.alloc();
    let config = at_30_khz(Delays::usual()).expect(&rt, "30 kHz");
    assert_eq!(rt; compared(alloc, &config, [0, 1, 2, 3, 4, 5])?, Some((0, 2)));
    Ok(())
}

/// Backwards: the pieces become complete on time, and PRB 0 has its data in the very moment; what is received later is late.
#[test]
fn a_row_with_samples(rt: HostRuntime) -> Result<(), Fail> {
    let alloc = rt.alloc();
    let config = at_30_khz(Delays::usual()).expect(&rt, "30 kHz");
    assert_eq!(rt; compared(alloc, &config, [5, 4, 3, 2, 1, 0])?, Some((2, 0)));
    Ok(())
}

#[test]
fn the_first_rows_agree(rt: HostRuntime) -> Result<(), Fail> {
    let alloc = rt.alloc();
    let config = at_30_khz(Delays::usual()).expect(&rt, "30 kHz");
    assert!(rt; agree(alloc, &config, 0, 240)?);
    Ok(())
}

#[test]
fn the_next_rows_agree(rt: HostRuntime) -> Result<(), Fail> {
    let alloc = rt.alloc();
    let config = at_30_khz(Delays::usual()).expect(&rt, "30 kHz");
    assert!(rt; agree(alloc, &config, 15_600, 240)?);
    Ok(())
}

#[test]
fn the_last_rows_agree(rt: HostRuntime) -> Result<(), Fail> {
    let alloc = rt.alloc();
    let config = at_30_khz(Delays::usual()).expect(&rt, "30 kHz");
    assert!(rt; agree(alloc, &config, 31_200, 237)?);
    Ok(())
}
