// What an explanation keeps of the events.
ghost use Rattle.std.specs.Prelude.{◌≡◌, ℕ, ℤ, List, [], ◌∷◌, ◌++◌, IfErr, IfOk, OnErr, OnOk};
ghost use Rattle.std.specs.List.{AllByRecursion};
ghost use Rattle.air_source.specs.Causes.{HasAirCause};
ghost use Rattle.air_source.specs.declared.events.Event.{Event};
ghost use Rattle.air_source.specs.declared.events.Event.TheVariants.{Arrival, Cell, Delay};
ghost use Rattle.explain_air.specs.Heard.{HasEnded, HasHeard, HasPending, IsLastOf, lines_at};
ghost use Rattle.explain_air.specs.Notes.{HasNoted};
ghost use Rattle.explain_model.specs.Subjects.{Subject, added, ending};
ghost use Rattle.explain_model.specs.declared.values.ExplainLine.TheVariants as line;
ghost use Rattle.explain_model.specs.Cells.{word_of};
ghost use Rattle.explain_model.specs.Stories.{stories, told};
ghost use Rattle.explain_units.specs.Fit.{IsFit};
ghost use Rattle.explain_units.specs.Frames.{IsFrame};
ghost use Rattle.explain_units.specs.Units.{IsUnitAfter, frame_lines};
ghost use Rattle.explain_records.specs.Records.{HaveHeard};
ghost use Rattle.plan_model.specs.Lines.{planned};
ghost use Rattle.unit_memory.specs.Control.{has_delay};
ghost use Rattle.unit_model.specs.Heard.{arrivals_heard};
ghost use Rattle.unit_model.specs.Standing.{History, arrived, at_clock};
ghost use Rattle.unit_model.specs.declared.allocations.Allocation.{Allocation};
ghost use Rattle.window_config.specs.declared.config.Config.{Config as SpecConfig};
ghost use Rattle.explain_heard.specs.Stops.{StopsSome};
ghost use Rattle.window_config.specs.Configs.{IsConfig};

use crate::closing::tell_last;
use crate::last::LastFrame;
use crate::notes::{Notes, Noting};
use crate::plan::PlanLines;
use crate::runs::RunLines;
use air_source::{AirCell, AirFault, Side};
use explain_heard::{Judged, LineSink};
use explain_model::{CellWord, ExplainLine};
use explain_records::HeardRecords;
use explain_units::{FrameHeard, UnitLines};
use fh_base::{NoMemory, Ticks};
use std::alloc::Global;
use unit_memory::TakesFrames;
use window_config::Config;

/// What an explanation keeps of the events until the last of them.
#[derive(Drop)]
pub struct Kept {
    // how many frames arrived and have their lines
    pub(crate) number: u32,
    pub(crate) ru: UnitLines,
    pub(crate) du: UnitLines,
    pub(crate) runs: RunLines,
    pub(crate) records: HeardRecords,
    pub(crate) plan: PlanLines,
    pub(crate) last: LastFrame,
}

/// The line of a measured delay.
fn delay_line(at: Ticks, side: Side, id: u8, value: i128) -> ExplainLine
    ensures { result ≡ line.Delay at side id value }
{
    ExplainLine::Delay {
        at,
        side,
        id,
        value,
    }
}

impl Kept {
    /// Takes the memory of both units. No event was heard.
    pub fn make(alloc: Global, config: &Config, plan: PlanLines) -> Result<Kept, NoMemory>
        requires { IsConfig config.now }
        ensures { IfOk result (λ k. (s : Subject) → s.config ≡ config.now → plan.planned ≡ planned s.config.endpoints s.plan → plan.numbers ≡ s.numbers → HasHeard s [] k) }
    {
        let ru = UnitLines::make(alloc, Side::Ru, config)?;
        let du = UnitLines::make(alloc, Side::Du, config)?;
        let notes = Notes::make(alloc, config)?;
        let records = HeardRecords::make(alloc, config)?;
        let last = LastFrame::make(alloc, config)?;
        Ok(Kept {
            number: 0,
            ru,
            du,
            runs: RunLines { run: None, notes },
            records,
            plan,
            last,
        })
    }

    // What a cell shows.
    fn word_of(&self, c: &AirCell) -> CellWord
        ensures { (s : Subject) (events : List Event) → HasHeard s events self.now → result ≡ word_of (told s.config events) c.now }
    {
        if c.block.is_none() {
            return CellWord::Missing;
        }
        let from = match c.side {
            Side::Ru => self.ru.giver(c),
            Side::Du => self.du.giver(c),
        };
        CellWord::Shown { from }
    }

    /// Hears a cell: where it ends a run, the line of that is told.
    pub(crate) fn cell<W: LineSink>(&mut self, c: &AirCell, out: &mut W) -> Result<(), AirFault>
        ensures after { OnOk result ((s : Subject) (events : List Event) → HasHeard s events self.old → HasHeard s (events ++ Cell c.now ∷ []) self.new) }
        ensures heard { OnOk result ((s : Subject) (events : List Event) → HasHeard s events self.old → W.grew out.old (added s.config events (Cell c.now)) out.new) }
        ensures stop { IfErr result (λ f. (s : Subject) (events : List Event) → HasHeard s events self.old → StopsSome W.grew (W.stopped f) (added s.config events (Cell c.now)) out.old out.new) }
        ensures same { W.same out.old out.new }
        ensures cause { HasAirCause (W.faults out.old) (W.faults out.new) result }
    {
        let word = self.word_of(c);
        self.runs.cell(c, word, out)
    }

    /// Hears a measured delay: the line of a run that it ends is told, and its own.
    pub(crate) fn delay<W: LineSink>(
        &mut self,
        at: Ticks,
        side: Side,
        id: u8,
        value: i128,
        out: &mut W,
    ) -> Result<(), AirFault>
        ensures after { OnOk result ((s : Subject) (events : List Event) → HasHeard s events self.old → HasHeard s (events ++ Delay at side id value ∷ []) self.new) }
        ensures heard { OnOk result ((s : Subject) (events : List Event) → HasHeard s events self.old → W.grew out.old (added s.config events (Delay at side id value)) out.new) }
        ensures stop { IfErr result (λ f. (s : Subject) (events : List Event) → HasHeard s events self.old → StopsSome W.grew (W.stopped f) (added s.config events (Delay at side id value)) out.old out.new) }
        ensures same { W.same out.old out.new }
        ensures cause { HasAirCause (W.faults out.old) (W.faults out.new) result }
    {
        self.runs.line(&delay_line(at, side, id, value), out)
    }

    /// Hears a frame, which is handed to its unit. Its lines are left to tell. Tells whether one of its whole messages is of delay
    /// measurement. After `NoMemory` the unit has not taken it.
    pub(crate) fn arrive<U: TakesFrames>(
        &mut self,
        side: Side,
        at: Ticks,
        bytes: &[u8],
        unit: &mut U,
    ) -> Result<bool, NoMemory>
        requires side { side ≡ U.side }
        requires unit { (c : SpecConfig) × (planned : List Allocation) × (h : History) × U.may_take unit.old c planned at.0 h }
        ensures after { OnOk result ((s : Subject) (events : List Event) (planned : List Allocation) (h : History) → HasHeard s events self.old
            → U.may_take unit.old s.config planned at.0 h → h.arrivals ≡ arrivals_heard side [] events
            → HasPending s events (Arrival side at bytes.now) self.new) }
        ensures took { OnOk result ((c : SpecConfig) (planned : List Allocation) (h : History) → U.may_take unit.old c planned at.0 h
            → U.may_take unit.new c planned at.0 (arrived (at_clock h at.0) bytes.now)) }
        ensures rests { OnErr result (unit.new ≡ unit.old) }
        ensures delay { IfOk result (λ d. d ≡ has_delay bytes.now) }
    {
        match self.number.checked_add(1) {
            Some(number) => Ok(self.last.arrive(number, side, at, bytes, unit)),
            None => Err(NoMemory),
        }
    }

    /// Tells the lines of the last frame, which is this one: the line of a run that it ends, and those of what its unit judged of it.
    pub(crate) fn tell_frame<W: LineSink>(
        &mut self,
        frame: &FrameHeard,
        out: &mut W,
    ) -> Result<(), AirFault>
        ensures after { OnOk result ((s : Subject) (events : List Event) (bytes : List ℕ) → HasHeard s events self.old → IsLastOf s.config events bytes frame.now self.old.last
            → HasHeard s (events ++ Arrival frame.now.side frame.now.at bytes ∷ []) self.new) }
        ensures heard { OnOk result ((s : Subject) (events : List Event) (bytes : List ℕ) → HasHeard s events self.old → IsLastOf s.config events bytes frame.now self.old.last
            → W.grew out.old (added s.config events (Arrival frame.now.side frame.now.at bytes)) out.new) }
        ensures stop { IfErr result (λ f. (s : Subject) (events : List Event) (bytes : List ℕ) → HasHeard s events self.old → IsLastOf s.config events bytes frame.now self.old.last
            → StopsSome W.grew (W.stopped f) (added s.config events (Arrival frame.now.side frame.now.at bytes)) out.old out.new) }
        ensures same { W.same out.old out.new }
        ensures cause { HasAirCause (W.faults out.old) (W.faults out.new) result }
    {
        self.runs.end(out)?;
        self.tell_judged(frame, out)
    }

    // Tells the lines of the last frame, where no run of cells may go on.
    fn tell_judged<W: LineSink>(&mut self, frame: &FrameHeard, out: &mut W) -> Result<(), AirFault>
        ensures after { OnOk result ((s : Subject) (events : List Event) (bytes : List ℕ) → HasEnded s events self.old → IsLastOf s.config events bytes frame.now self.old.last
            → HasHeard s (events ++ Arrival frame.now.side frame.now.at bytes ∷ []) self.new) }
        ensures heard { OnOk result ((s : Subject) (events : List Event) (bytes : List ℕ) → HasEnded s events self.old → IsLastOf s.config events bytes frame.now self.old.last
            → W.grew out.old (lines_at s events frame.now.side frame.now.at bytes) out.new) }
        ensures stop { IfErr result (λ f. (s : Subject) (events : List Event) (bytes : List ℕ) → HasEnded s events self.old → IsLastOf s.config events bytes frame.now self.old.last
            → StopsSome W.grew (W.stopped f) (lines_at s events frame.now.side frame.now.at bytes) out.old out.new) }
        ensures same { W.same out.old out.new }
        ensures cause { HasAirCause (W.faults out.old) (W.faults out.new) result }
    {
        self.last.judge(frame.side)?;
        let judged = self.last.judged();
        let notes = &mut self.runs.notes;
        self.number = frame.number;
        match frame.side {
            Side::Ru => hear(frame, judged, &mut self.ru, notes, &mut self.records, out),
            Side::Du => hear(frame, judged, &mut self.du, notes, &mut self.records, out),
        }
    }

    /// Tells what is between the lines of the events and the counters.
    pub(crate) fn close<W: LineSink>(self, alloc: Global, out: &mut W) -> Result<(), AirFault>
        ensures heard { OnOk result ((s : Subject) (events : List Event) → HasHeard s events self → W.grew out.old (ending s events) out.new) }
        ensures stop { IfErr result (λ f. (s : Subject) (events : List Event) → HasHeard s events self → StopsSome W.grew (W.stopped f) (ending s events) out.old out.new) }
        ensures same { W.same out.old out.new }
        ensures cause { HasAirCause (W.faults out.old) (W.faults out.new) result }
    {
        let Kept {
            number: _,
            ru,
            du,
            mut runs,
            records,
            plan,
            last: _last,
        } = self;
        runs.end(out)?;
        let RunLines { run: _, notes } = runs;
        tell_last(alloc, &ru, &du, notes, records, &plan, out)
    }
}

/// Tells the lines of a frame at a unit, and keeps their records.
fn hear<W: LineSink>(
    frame: &FrameHeard,
    judged: &[Judged],
    unit: &mut UnitLines,
    notes: &mut Notes,
    records: &mut HeardRecords,
    out: &mut W,
) -> Result<(), AirFault>
    requires { AllByRecursion IsFit judged.now }
    ensures unit { OnOk result ((c : SpecConfig) (events : List Event) (bytes : List ℕ) → IsUnitAfter frame.now.side c events unit.old → IsFrame c events bytes frame.now judged.now
        → IsUnitAfter frame.now.side c (events ++ Arrival frame.now.side frame.now.at bytes ∷ []) unit.new) }
    ensures records { OnOk result ((c : SpecConfig) (events : List Event) (bytes : List ℕ) → IsFrame c events bytes frame.now judged.now
        → HaveHeard c (stories c events) records.old → HaveHeard c (stories c (events ++ Arrival frame.now.side frame.now.at bytes ∷ [])) records.new) }
    ensures noted { OnOk result ((c : SpecConfig) (events : List Event) (bytes : List ℕ) → IsUnitAfter frame.now.side c events unit.old → IsFrame c events bytes frame.now judged.now
        → HasNoted notes.old (frame_lines frame.now.side c events frame.now.number frame.now.at.0 bytes) notes.new) }
    ensures heard { OnOk result ((c : SpecConfig) (events : List Event) (bytes : List ℕ) → IsUnitAfter frame.now.side c events unit.old → IsFrame c events bytes frame.now judged.now
        → W.grew out.old (frame_lines frame.now.side c events frame.now.number frame.now.at.0 bytes) out.new) }
    ensures stop { IfErr result (λ f. (c : SpecConfig) (events : List Event) (bytes : List ℕ) → IsUnitAfter frame.now.side c events unit.old → IsFrame c events bytes frame.now judged.now
        → StopsSome W.grew (W.stopped f) (frame_lines frame.now.side c events frame.now.number frame.now.at.0 bytes) out.old out.new) }
    ensures same { W.same out.old out.new }
    ensures cause { HasAirCause (W.faults out.old) (W.faults out.new) result }
{
    note_frame(frame, judged, unit, notes, out)?;
    records.keep(frame.side, frame.number, judged)?;
    Ok(())
}

/// Tells the lines of a frame at a unit, and notes them.
fn note_frame<W: LineSink>(
    frame: &FrameHeard,
    judged: &[Judged],
    unit: &mut UnitLines,
    notes: &mut Notes,
    out: &mut W,
) -> Result<(), AirFault>
    requires { AllByRecursion IsFit judged.now }
    ensures after { OnOk result ((c : SpecConfig) (events : List Event) (bytes : List ℕ) → IsUnitAfter frame.now.side c events unit.old → IsFrame c events bytes frame.now judged.now
        → IsUnitAfter frame.now.side c (events ++ Arrival frame.now.side frame.now.at bytes ∷ []) unit.new) }
    ensures noted { OnOk result ((c : SpecConfig) (events : List Event) (bytes : List ℕ) → IsUnitAfter frame.now.side c events unit.old → IsFrame c events bytes frame.now judged.now
        → HasNoted notes.old (frame_lines frame.now.side c events frame.now.number frame.now.at.0 bytes) notes.new) }
    ensures heard { OnOk result ((c : SpecConfig) (events : List Event) (bytes : List ℕ) → IsUnitAfter frame.now.side c events unit.old → IsFrame c events bytes frame.now judged.now
        → W.grew out.old (frame_lines frame.now.side c events frame.now.number frame.now.at.0 bytes) out.new) }
    ensures stop { IfErr result (λ f. (c : SpecConfig) (events : List Event) (bytes : List ℕ) → IsUnitAfter frame.now.side c events unit.old → IsFrame c events bytes frame.now judged.now
        → StopsSome W.grew (W.stopped f) (frame_lines frame.now.side c events frame.now.number frame.now.at.0 bytes) out.old out.new) }
    ensures same { W.same out.old out.new }
    ensures cause { HasAirCause (W.faults out.old) (W.faults out.new) result }
{
    let mut noting = Noting {
        out: &mut *out,
        notes: &mut *notes,
    };
    unit.hear(frame, judged, &mut noting)
}
