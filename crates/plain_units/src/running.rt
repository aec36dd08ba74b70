// Units that keep whole lists, over whole lists of frames.
ghost use Rattle.std.specs.Prelude.{◌≡◌, ℕ, ◌+◌, ◌<◌, List as Items, All, IfOk, length, slice_index_or};
ghost use Rattle.unit_model.specs.Terms.{AirCell as SpecCell, IsConfig};
ghost use Rattle.fault_counters.specs.declared.kinds.Counter.{Counter as SpecCounter};
ghost use Rattle.fault_counters.specs.Counts.{capped, count_of, times};
ghost use Rattle.unit_model.specs.Counts.{block_counter, cells_counted};
ghost use Rattle.unit_model.specs.Meetings.{meetings};
ghost use Rattle.plain_units.specs.Plain.{PlainStands, arrivals_of};
ghost use Rattle.unit_model.specs.Proper.{IsProperAllocation, IsTime};
ghost use Rattle.plain_units.specs.Reports.{IsRuReport, IsDuReport};
ghost use Rattle.plain_units.specs.declared.report.TimedFrame.{TimedFrame as SpecFrame};

use crate::plain::Plain;
use crate::radiating::reported;
use crate::uplink::jobs;
use crate::{Report, TimedFrame};
use air_source::{AirCell, Side};
use fault_counters::{Counter, Counters};
use fh_base::{List, NoMemory, Ticks};
use std::alloc::Global;
use unit_model::{Allocation, block_counter};
use window_config::Config;

/// A unit that received frames, in this order.
fn treated(
    alloc: Global,
    side: Side,
    config: &Config,
    frames: &[TimedFrame],
) -> Result<Plain, NoMemory>
    requires config { IsConfig config.now }
    requires times { All (λ (f : SpecFrame). IsTime f.at.0) frames.now }
    ensures { IfOk result (λ u. PlainStands u side config.now (arrivals_of frames.now) (meetings side config.now.endpoints (arrivals_of frames.now))) }
{
    let mut unit = Plain::make(alloc, side, config)?;
    for f in frames {
        unit.frame(alloc, side, config, f.at, f.frame.as_slice())?;
    }
    Ok(unit)
}

/// Under which counter the cell `k` of these is counted.
fn counter_at(cells: &List<AirCell>, k: usize) -> Counter
    requires { k < length cells.now }
    ensures { (d : SpecCell) → result ≡ block_counter (slice_index_or cells.now k d).block }
{
    match cells.get(k) {
        Some(cell) => block_counter(cell.block),
        None => Counter::Missing,
    }
}

/// Counts the cells that were reported.
fn count_cells(counters: &mut Counters, cells: &List<AirCell>)
    ensures { (n : SpecCounter → ℕ) → ((k : SpecCounter) → count_of counters.old k ≡ capped (n k))
        → (k : SpecCounter) → count_of counters.new k ≡ capped (n k + times (cells_counted cells.now) k) }
{
    for k in 0..cells.len() {
        counters.add(counter_at(cells, k));
    }
}

/// What the radio unit makes of frames that arrive in this order, up to the time `to`, that time included: its verdicts, its
/// counters, the downlink cells that radiate, and the uplink messages that it is to send (this project's profile; the layouts are
/// those of O-RAN.WG4.CUS and eCPRI).
///
/// # Errors
///
/// [`NoMemory`] where memory runs out.
pub fn plain_ru(
    alloc: Global,
    config: &Config,
    frames: &[TimedFrame],
    to: Ticks,
) -> Result<Report, NoMemory>
    requires config { IsConfig config.now }
    requires times { All (λ (f : SpecFrame). IsTime f.at.0) frames.now }
    requires to { IsTime to.0 }
    ensures { IfOk result (λ r. IsRuReport config.now (arrivals_of frames.now) to.0 r) }
{
    let mut unit = treated(alloc, Side::Ru, config, frames)?;
    let endpoints = config.endpoints.as_slice();
    let cells = reported(
        alloc,
        Side::Ru,
        &config.delays,
        endpoints,
        &unit.accepted,
        &unit.timely,
        to,
    )?;
    let jobs = jobs(alloc, endpoints, &unit.accepted, to)?;
    count_cells(&mut unit.counters, &cells);
    Ok(Report {
        command_verdicts: unit.command_verdicts,
        data_verdicts: unit.data_verdicts,
        counters: unit.counters,
        cells,
        jobs,
    })
}

/// What the distributed unit makes of frames that arrive in this order, up to the time `to`, that time included, where these
/// allocations are its plan, the newest first: its verdicts, its counters, and the uplink cells of the plan (this project's
/// profile). Commands go to the radio unit alone, so it has no verdict on one and nothing to send.
///
/// # Errors
///
/// [`NoMemory`] where memory runs out.
pub fn plain_du(
    alloc: Global,
    config: &Config,
    planned: &[Allocation],
    frames: &[TimedFrame],
    to: Ticks,
) -> Result<Report, NoMemory>
    requires config { IsConfig config.now }
    requires planned { All (IsProperAllocation config.now.endpoints) planned.now }
    requires times { All (λ (f : SpecFrame). IsTime f.at.0) frames.now }
    requires to { IsTime to.0 }
    ensures { IfOk result (λ r. IsDuReport config.now planned.now (arrivals_of frames.now) to.0 r) }
{
    let mut unit = treated(alloc, Side::Du, config, frames)?;
    let endpoints = config.endpoints.as_slice();
    let cells = reported(
        alloc,
        Side::Du,
        &config.delays,
        endpoints,
        planned,
        &unit.timely,
        to,
    )?;
    count_cells(&mut unit.counters, &cells);
    Ok(Report {
        command_verdicts: unit.command_verdicts,
        data_verdicts: unit.data_verdicts,
        counters: unit.counters,
        cells,
        jobs: List::new(alloc),
    })
}
