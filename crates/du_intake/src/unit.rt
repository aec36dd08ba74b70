// The distributed unit's intake.
ghost use Rattle.std.specs.Prelude.{pos, neg_ℤ, ◌+ℤ◌, ◌≡◌, ◌-◌, ◌^◌, ◌≤ℤ◌, ◌++◌, List, IfOk, length, min};
ghost use Rattle.air_source.specs.declared.events.Side.TheVariants.{Du as AtDu};
ghost use Rattle.ecpri_frames.specs.Gathering.{whole_messages};
ghost use Rattle.ecpri_frames.specs.Messages.{pdu};
ghost use Rattle.window_config.specs.Configs.{IsConfig};
ghost use Rattle.window_config.specs.declared.config.Config.{Config as SpecConfig};
ghost use Rattle.unit_model.specs.Counts.{StandAt, cells_counted};
ghost use Rattle.unit_model.specs.Proper.{IsTime};
ghost use Rattle.unit_model.specs.Radiated.{wait_of};
ghost use Rattle.unit_model.specs.Reports.{arrivals_counted};
ghost use Rattle.unit_model.specs.Standing.{History, arrived, at_clock, nothing_yet};
ghost use Rattle.unit_model.specs.declared.allocations.Allocation.{Allocation as SpecAllocation};
ghost use Rattle.du_intake.specs.Planned.{IsPlanOf};
ghost use Rattle.fh_base.specs.declared.carrier.TheConstants.{CARRIER_PRBS};

use crate::claims::{NO_CLAIM, PlannedClaim};
use crate::plan::{Place, UplinkPlan};
use air_source::Side;
use fault_counters::Counters;
use fh_base::{CARRIER_PRBS, FIRST_CLOCK, NoMemory, Ticks, of_ns};
use plan_model::PlannedLine;
use std::alloc::Global;
use unit_memory::{Arrived, TakesFrames, UnitMemory};
use unit_model::{Deaf, Delivered, Listener};
use window_config::Config;

/// How long after the start of its symbol a cell is reported.
fn wait_of(config: &Config) -> Ticks
    requires { IsConfig config.now }
    ensures { result.0 ≡ wait_of AtDu config.now.delays }
{
    of_ns(config.delays.ta4.max)
}

/// The moment of a cell whose symbol starts then.
pub(crate) fn moment_of(start: Ticks, wait: Ticks) -> Ticks
    ensures { neg_ℤ (pos (2 ^ 60)) ≤ℤ start.0 → start.0 ≤ℤ pos (2 ^ 60) → pos 0 ≤ℤ wait.0 → wait.0 ≤ℤ pos (2 ^ 60) → result.0 ≡ start.0 +ℤ wait.0 }
{
    Ticks(start.0.saturating_add(wait.0))
}

/// A row of claims for the PRBs of any carrier.
fn empty_row(alloc: Global) -> Result<Vec<PlannedClaim>, NoMemory>
    ensures { IfOk result (λ row. length row.items ≡ CARRIER_PRBS) }
{
    Ok(vec![in alloc; NO_CLAIM; CARRIER_PRBS as usize]?)
}

/// The distributed unit's intake, in memory that is taken when it is made.
///
/// Its contracts say of each history that it stands for, which one it stands for after a call. Of slots that are live at its clock it
/// answers as the definitions do over all that was ever received; its claims are those of its plan, of every slot.
#[derive(Drop)]
pub struct Intake {
    pub(crate) memory: UnitMemory,
    pub(crate) clock: Ticks,
    /// What the plan's uplink lines name.
    pub(crate) plan: UplinkPlan,
    /// What they claim of the symbol that is reported, PRB by PRB.
    pub(crate) row: Vec<PlannedClaim>,
    /// Which planned cell is reported next.
    pub(crate) place: Place,
    /// How long after the start of its symbol a cell is reported: Ta4's maximum.
    pub(crate) wait: Ticks,
}

impl Intake {
    ghost use Rattle.du_intake.specs.Calls.{IsIntakeDue, IsReportedBefore, MayTakeAt, IntakeStandsFor, intake_clock};
    ghost use Rattle.plan_model.specs.Lines.{uplink_allocations};
    ghost use Rattle.unit_memory.specs.Control.{has_control, has_delay};
    ghost use Rattle.unit_memory.specs.Memory.{arrival_at};
    ghost use Rattle.std.specs.Prelude.{All, ◌∷◌};
    ghost use Rattle.unit_model.specs.Standing.{AreInTime};
    ghost use Rattle.unit_model.specs.Judgements.{judgements};

    /// Takes all memory of the unit, for the lines of a plan at their endpoints. Its clock is one frame before 0.
    ///
    /// # Errors
    ///
    /// [`NoMemory`] where memory runs out.
    pub fn make(alloc: Global, config: &Config, lines: &[PlannedLine]) -> Result<Intake, NoMemory>
        requires config { IsConfig config.now }
        requires plan { IsPlanOf config.now lines.now }
        ensures { IfOk result (λ u. IntakeStandsFor config.now (uplink_allocations lines.now) u nothing_yet) }
    {
        let plan = UplinkPlan::make(alloc, config, lines)?;
        let row = empty_row(alloc)?;
        let memory = UnitMemory::make(alloc, Side::Du, config)?;
        Ok(Intake {
            memory,
            clock: FIRST_CLOCK,
            plan,
            row,
            place: Place { symbol: 0, prb: 0 },
            wait: wait_of(config),
        })
    }

    /// The time of the last delivery or close, in ticks; one frame before 0 where there was none.
    pub fn clock(&self) -> Ticks
        ensures { (c : SpecConfig) (planned : List SpecAllocation) (h : History) → IntakeStandsFor c planned self.now h → result.0 ≡ h.clock }
    {
        self.clock
    }

    /// What the unit counted.
    pub fn counters(&self) -> &Counters
        ensures { (c : SpecConfig) (planned : List SpecAllocation) (h : History) → IntakeStandsFor c planned self.now h
            → StandAt result.now (arrivals_counted AtDu c h.arrivals ++ cells_counted h.reported) }
    {
        &self.memory.counters
    }

    /// The least moment, in ticks, of a planned cell that was not reported: the start of its symbol and Ta4's maximum. None where there is
    /// none.
    pub fn due(&self) -> Option<Ticks>
        ensures { (c : SpecConfig) (planned : List SpecAllocation) (h : History) → IntakeStandsFor c planned self.now h → IsIntakeDue c planned h result }
    {
        match self.plan.planned_symbol(self.place.symbol) {
            Some(next) => Some(moment_of(next.start, self.wait)),
            None => None,
        }
    }

    /// Treats a frame that arrives at a time, in ticks (eCPRI 2.0, and O-RAN.WG4.CUS for the messages; what the unit makes of them is
    /// this project's profile): not before the clock, and when every planned cell of an earlier moment was reported. The clock is then
    /// this time. No memory is asked for.
    pub fn deliver(&mut self, at: Ticks, frame: &[u8]) -> Delivered
        requires unit { MayTakeAt at.0 self.old }
        requires order { (intake_clock self.old).0 ≤ℤ at.0 }
        requires time { IsTime at.0 }
        ensures stands { (c : SpecConfig) (planned : List SpecAllocation) (h : History) → IntakeStandsFor c planned self.old h → IsReportedBefore c planned h at.0
            → IntakeStandsFor c planned self.new (arrived (at_clock h at.0) frame.now) }
        ensures clock { intake_clock self.new ≡ at }
        ensures messages { result.messages ≡ min (length (whole_messages frame.now)) (2 ^ 32 - 1) }
        ensures refusal { result.refusal ≡ (pdu frame.now).refusal }
    {
        self.arrive(&mut Deaf {}, at, frame).delivered
    }

    /// The same, with what else the unit's memory answers of the frame. A listener hears what is judged.
    fn arrive<L: Listener>(&mut self, listener: &mut L, at: Ticks, frame: &[u8]) -> Arrived
        requires unit { MayTakeAt at.0 self.old }
        requires order { (intake_clock self.old).0 ≤ℤ at.0 }
        requires time { IsTime at.0 }
        ensures stands { (c : SpecConfig) (planned : List SpecAllocation) (h : History) → IntakeStandsFor c planned self.old h → IsReportedBefore c planned h at.0
            → IntakeStandsFor c planned self.new (arrived (at_clock h at.0) frame.now) }
        ensures told { (c : SpecConfig) (planned : List SpecAllocation) (h : History) → IntakeStandsFor c planned self.old h → IsReportedBefore c planned h at.0
            → L.heard listener.old (judgements AtDu c h.arrivals (arrival_at at.0 frame.now)) listener.new }
        ensures times { (c : SpecConfig) (planned : List SpecAllocation) (h : History) → IntakeStandsFor c planned self.old h → IsReportedBefore c planned h at.0
            → IsConfig c × AreInTime at.0 (arrival_at at.0 frame.now ∷ h.arrivals) × All (λ a. IsTime a.at) (arrival_at at.0 frame.now ∷ h.arrivals) }
        ensures clock { intake_clock self.new ≡ at }
        ensures messages { result.delivered.messages ≡ min (length (whole_messages frame.now)) (2 ^ 32 - 1) }
        ensures refusal { result.delivered.refusal ≡ (pdu frame.now).refusal }
        ensures control { result.control ≡ has_control frame.now }
        ensures delay { result.delay ≡ has_delay frame.now }
    {
        self.clock = at;
        self.memory.arrive_told(listener, at, frame)
    }
}

impl TakesFrames for Intake {
    ghost use Rattle.du_intake.specs.Calls.{IntakeMayTake};

    ghost side = { AtDu };

    ghost may_take = { λ u c planned at h. IntakeMayTake u c planned at h };

    fn take(&mut self, at: Ticks, frame: &[u8]) -> bool {
        self.arrive(&mut Deaf {}, at, frame).delay
    }

    fn take_told<L: Listener>(&mut self, listener: &mut L, at: Ticks, frame: &[u8]) -> Arrived {
        self.arrive(listener, at, frame)
    }
}
