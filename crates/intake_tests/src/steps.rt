// What is done with an intake.
ghost use Rattle.std.specs.Prelude.{◌≡◌, ◌≤ℤ◌, true, All, List as SpecList, IfOk};
ghost use Rattle.window_config.specs.Configs.{IsConfig};
ghost use Rattle.window_config.specs.Plans.{IsPlanLine};
ghost use Rattle.window_config.specs.declared.config.Config.{Config as SpecConfig};
ghost use Rattle.unit_model.specs.Proper.{IsTime};
ghost use Rattle.unit_model.specs.Standing.{History};
ghost use Rattle.unit_model.specs.declared.allocations.Allocation.{Allocation};
ghost use Rattle.du_intake.specs.Calls.{IsReportedBefore, IntakeStandsFor};
ghost use Rattle.du_intake.specs.Closing.{IntakeStandsForSome};
ghost use Rattle.du_intake.specs.Planned.{IsPlanOf};

use air_source::{Air, AirFault};
use du_intake::{Delivered, Intake};
use du_scheduler::{planned_lines, tested};
use fh_base::{List, NoMemory, Ticks};
use plan_model::PlannedLine;
use std::alloc::Global;
use window_config::{Config, PlanLine};

/// An intake for the lines of a valid plan at their endpoints.
pub fn made_of(alloc: Global, config: &Config, lines: &[PlannedLine]) -> Result<Intake, NoMemory>
    requires config { IsConfig config.now }
    requires plan { IsPlanOf config.now lines.now }
    ensures { IfOk result IntakeStandsForSome }
{
    match Intake::make(alloc, config, lines) {
        Ok(unit) => Ok(unit),
        Err(NoMemory) => Err(NoMemory),
    }
}

/// An intake for the lines of a plan; `NoMemory` too where the plan is not valid.
pub fn made(alloc: Global, config: &Config, lines: &List<PlanLine>) -> Result<Intake, NoMemory>
    requires config { IsConfig config.now }
    requires lines { All IsPlanLine lines.now }
    ensures { IfOk result IntakeStandsForSome }
{
    if tested(alloc, config, lines).is_err() {
        return Err(NoMemory);
    }
    let planned = planned_lines(alloc, config.endpoints.as_slice(), lines)?;
    made_of(alloc, config, &planned)
}

/// Whether a time is not before the clock.
fn is_later(unit: &Intake, at: Ticks) -> bool
    ensures { IntakeStandsForSome unit.now → result ≡ true → unit.now.clock.0 ≤ℤ at.0 }
{
    unit.clock().0 <= at.0
}

/// Whether all cells whose moments are before a time are reported.
fn has_reported(unit: &Intake, at: Ticks) -> bool
    ensures { (c : SpecConfig) (planned : SpecList Allocation) (h : History) → IntakeStandsFor c planned unit.now h → result ≡ true → IsReportedBefore c planned h at.0 }
{
    match unit.due() {
        None => true,
        Some(due) => at.0 <= due.0,
    }
}

/// What becomes of a frame; None where the time is before the clock, or a cell of an earlier moment is left.
pub fn step(unit: &mut Intake, at: Ticks, frame: &[u8]) -> Option<Delivered>
    requires unit { IntakeStandsForSome unit.old }
    requires time { IsTime at.0 }
    ensures { IntakeStandsForSome unit.new }
{
    if !is_later(unit, at) {
        return None;
    }
    if !has_reported(unit, at) {
        return None;
    }
    Some(unit.deliver(at, frame))
}

/// Reports the cells up to a time; no memory where the time is before the clock.
pub fn close<A: Air>(unit: &mut Intake, to: Ticks, air: &mut A) -> Result<(), AirFault>
    requires unit { IntakeStandsForSome unit.old }
    requires time { IsTime to.0 }
    ensures { IntakeStandsForSome unit.new }
{
    if !is_later(unit, to) {
        return Err(AirFault::NoMemory);
    }
    match unit.close_until(to, air) {
        Ok(()) => Ok(()),
        Err(fault) => Err(fault),
    }
}

/// Reports the cells whose moments are before a time. No plan has a moment before time 0.
pub fn close_before<A: Air>(unit: &mut Intake, at: Ticks, air: &mut A) -> Result<(), AirFault>
    requires unit { IntakeStandsForSome unit.old }
    requires time { IsTime at.0 }
    ensures { IntakeStandsForSome unit.new }
{
    match unit.due() {
        Some(due) if 0 <= due.0 && due.0 < at.0 => close(unit, Ticks(at.0 - 1), air),
        _ => Ok(()),
    }
}
