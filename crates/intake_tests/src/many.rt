// 50 s at 30 kHz, slot by slot: 100,000 slots, of which each hundredth has a line. A slot has 768,000,000 ticks, and frame 1 begins at
// tick 15360000000; a cell is told 416,256,000 ticks after the start of its symbol.
ghost use Rattle.std.specs.Prelude.{◌<◌, ◌≤ℤ◌, pos, All, IfOk};
ghost use Rattle.du_intake.specs.Closing.{IntakeStandsForSome};
ghost use Rattle.unit_model.specs.Proper.{IsTime};
ghost use Rattle.window_config.specs.Plans.{IsPlanLine};

use crate::sample_plans::line;
use crate::samples::{DATA, Data, READ, at_30_khz, block, cell, has_counted, heard};
use crate::steps::{close, made, step};
use air_source::{AirCell, MemoryAir};
use du_intake::Intake;
use fault_counters::Counter;
use fh_base::{List, NoMemory, Slot, Ticks};
use std::alloc::Global;
use std::test::Fail;
use window_config::{Delays, PlanLine};

/// The slot with a number, counted from frame 1 on.
fn slot_of(k: u32) -> Slot
    requires { k < 100000 }
    ensures low { pos 1 ≤ℤ result.frame }
    ensures high { result.frame ≤ℤ pos 99999 }
    ensures subframe { result.subframe < 10 }
    ensures slot { result.slot < 2 }
{
    Slot {
        frame: 1 + i64::from(k / 20),
        subframe: (k / 2 % 10) as u8,
        slot: (k % 2) as u8,
    }
}

/// A time so many ticks after the start of the slot with a number.
fn behind(k: u32, ticks: i64) -> Ticks
    requires slot { k < 100000 }
    requires low { pos 0 ≤ℤ ticks }
    requires high { ticks ≤ℤ pos 768000000 }
    ensures { IsTime result.0 }
{
    Ticks(15_360_000_000 + i64::from(k) * 768_000_000 + ticks)
}

/// The line of the slot with a number: symbol 0, PRB 0.
fn line_of(k: u32) -> PlanLine
    requires { k < 100000 }
    ensures { IsPlanLine result }
{
    PlanLine {
        slot: slot_of(k),
        ..line()
    }
}

/// A line in the last of each 100 slots.
fn lines(alloc: Global) -> Result<List<PlanLine>, NoMemory>
    ensures { IfOk result (λ lines. All IsPlanLine lines) }
{
    let mut lines = List::new(alloc);
    for j in 0..1_000u32 {
        lines.push(line_of(100 * j + 99))?;
    }
    Ok(lines)
}

/// Whether the data of the slot with a number are lost: those of each second line.
fn is_lost(k: u32) -> bool {
    k % 200 == 199
}

/// The first sample of the data of the slot with a number.
fn value_of(k: u32) -> u8 {
    (k % 251) as u8
}

/// The data of the slot with a number.
fn data_of(k: u32) -> [u8; 64]
    requires { k < 100000 }
{
    let slot = slot_of(k);
    let mut frame = Data {
        sequence: (k % 256) as u8,
        value: value_of(k),
        ..DATA
    }
    .frame();
    frame[9] = (slot.frame % 256) as u8;
    frame[10] = slot.subframe << 4;
    frame[11] = slot.slot << 6;
    frame
}

/// The cell of the slot with a number.
fn cell_of(k: u32) -> Option<AirCell>
    requires { k < 100000 }
{
    let samples = if is_lost(k) { None } else { block(value_of(k)) };
    Some(AirCell {
        at: behind(k, 0),
        slot: slot_of(k),
        ..cell(0, 0xfff, samples)
    })
}

/// The data of a slot are received 100 us after its start, where they are not lost. Whether they are read.
fn data_come(unit: &mut Intake, k: u32) -> bool
    requires unit { IntakeStandsForSome unit.old }
    requires slot { k < 100000 }
    ensures { IntakeStandsForSome unit.new }
{
    if is_lost(k) {
        return true;
    }
    step(unit, behind(k, 153_600_000), &data_of(k)) == READ
}

/// The data of a slot are received, and its cells are reported. Whether both may be done.
fn one_slot(unit: &mut Intake, k: u32, air: &mut MemoryAir) -> bool
    requires unit { IntakeStandsForSome unit.old }
    requires slot { k < 100000 }
    ensures { IntakeStandsForSome unit.new }
{
    data_come(unit, k) && close(unit, behind(k, 416_256_000), air) == Ok(())
}

/// All slots, one after the other.
fn all_slots(unit: &mut Intake, air: &mut MemoryAir) -> bool
    requires { IntakeStandsForSome unit.old }
{
    for k in 0..100_000u32 {
        if !one_slot(unit, k, air) {
            return false;
        }
    }
    true
}

/// Whether the air heard the planned cells alone, each once and in order.
fn has_heard_all(air: &MemoryAir) -> bool {
    for j in 0..1_000u32 {
        if heard(air, j as usize) != cell_of(100 * j + 99) {
            return false;
        }
    }
    air.heard().len() == 1_000
}

#[test]
fn many_slots_pass(rt: HostRuntime) -> Result<(), Fail> {
    let alloc = rt.alloc();
    let config = at_30_khz(Delays::usual()).expect(&rt, "30 kHz");
    let mut unit = made(alloc, &config, &lines(alloc)?)?;
    let mut air = MemoryAir::new(alloc, List::new(alloc));
    assert!(rt; all_slots(&mut unit, &mut air));
    assert!(rt; unit.due() == None);
    assert!(rt; has_heard_all(&air));
    let wanted = [
        (Counter::Frames, 99_500),
        (Counter::Messages, 99_500),
        (Counter::FWhole, 99_500),
        (Counter::UTaken, 99_500),
        (Counter::Cells, 500),
        (Counter::Missing, 500),
    ];
    assert!(rt; has_counted(unit.counters(), &wanted));
    Ok(())
}
