// The air that writes an explanation.
ghost use Rattle.std.specs.Prelude.{◌≡◌, ◌<◌, ◌^◌, ℕ, ℤ, Bool, Option, [], ◌∷◌, ◌++◌, Some, None, refl, List, OnErr, OnOk, IfErr, IfOk};
ghost use Rattle.std.proofs.Common.{◌∙◌};
ghost use Rattle.std.specs.Io.KnownBytes.{append_known};
ghost use Rattle.air_source.specs.Causes.{HasAirCause};
ghost use Rattle.air_source.specs.declared.airs.AirFault.TheVariants.{NoMemory as WantsMemory};
ghost use Rattle.air_source.specs.declared.events.Event.{Event};
ghost use Rattle.air_source.specs.declared.events.Event.TheVariants.{Arrival, Cell, Count, Delay};
ghost use Rattle.explain_air.specs.AirLaws.{grew_more, grew_none};
ghost use Rattle.explain_air.specs.Airs.{Closes, ClosesPart, Grew, IsAfter, IsPending, IsTold, Stopped, Tells, TellsLast, TellsLastPart, TellsPart};
ghost use Rattle.explain_air.specs.Heard.{HasHeard};
ghost use Rattle.explain_model.specs.Subjects.{Subject, reasons_of};
ghost use Rattle.explain_model.specs.declared.values.ExplainLine.TheVariants as line;
ghost use Rattle.explain_air.specs.Outs.{Took, kept_text};
ghost use Rattle.explain_air.specs.declared.kept.Kept.{Kept as SpecKept};
ghost use Rattle.explain_model.specs.Stories.{arrival_count};
ghost use Rattle.explain_model.specs.Text.{explain_of, first_lines};
ghost use Rattle.fh_base.specs.Told.{WritesFront, WritesPart};
ghost use Rattle.unit_memory.specs.Control.{has_delay};
ghost use Rattle.unit_model.specs.Heard.{arrivals_heard};
ghost use Rattle.unit_model.specs.Standing.{History, arrived, at_clock};
ghost use Rattle.unit_model.specs.declared.allocations.Allocation.{Allocation};
ghost use Rattle.window_config.specs.Configs.{IsConfig};
ghost use Rattle.window_config.specs.declared.config.Config.{Config as SpecConfig};

use crate::first::tell_first;
use crate::kept::Kept;
use crate::out::LineOut;
use air_source::{AirCell, AirFault, Side, push_out};
use explain_heard::LineSink;
use explain_model::ExplainLine;
use fault_counters::Counter;
use fh_base::{Line, OwedBytes, Sink, Ticks};
use std::alloc::Global;
use unit_memory::TakesFrames;
use unit_moments::ListeningAir;
use window_config::Config;

/// An air that writes an explanation to a sink that it borrows: all lines, or those of the text of the faults alone.
///
/// It owes up to 8,192 bytes to the sink. [`begin`](ExplainAir::begin) writes what is before the events,
/// [`finish`](ExplainAir::finish) what is after them and what is owed.
#[derive(Drop)]
pub struct ExplainAir<'a, K> {
    alloc: Global,
    sink: &'a mut K,
    owed: OwedBytes,
    // the line that is told next, which is written in place
    line: Line,
    faults: bool,
    // what is kept of the events, until the first counter
    kept: Option<Kept>,
}

impl<'a, K: Sink> ExplainAir<'a, K> {
    ghost use Rattle.explain_air.specs.Airs.{sink_name, sink_of, owed_of};

    /// An air that heard what is kept, wrote nothing and owes nothing.
    pub fn over(alloc: Global, kept: Kept, faults: bool, sink: &'a mut K) -> ExplainAir<'a, K>
        ensures reference { sink_name result ≡ sink.entry.ghost_name }
        ensures unchanged { sink_of result ≡ sink.old }
        ensures owed { owed_of result ≡ [] }
        ensures kept { result.kept ≡ Some kept }
        ensures faults { result.faults ≡ faults }
    {
        ExplainAir {
            alloc,
            sink,
            owed: OwedBytes::new(),
            line: Line::new(),
            faults,
            kept: Some(kept),
        }
    }

    // Owes a line, where it is in the text.
    fn say(&mut self, line: &ExplainLine) -> Result<(), AirFault>
        ensures reference { sink_name self.new ≡ sink_name self.old }
        ensures kept { self.new.kept ≡ self.old.kept }
        ensures took { OnOk result (Took self.old.faults (K.written (sink_of self.old)) (owed_of self.old) (line.now ∷ []) self.new.faults (K.written (sink_of self.new)) (owed_of self.new)) }
        ensures stop { OnErr result (WritesPart (K.written (sink_of self.old)) (K.written (sink_of self.new)) (owed_of self.old ++ kept_text self.old.faults (line.now ∷ []))) }
        ensures cause { HasAirCause (K.faults (sink_of self.old)) (K.faults (sink_of self.new)) result }
    {
        let mut out = LineOut {
            sink: &mut *self.sink,
            owed: &mut self.owed,
            line: &mut self.line,
            faults: self.faults,
        };
        out.put(line)
    }

    // Tells the lines before the counters, where they are not told yet.
    fn close(&mut self) -> Result<(), AirFault>
        ensures reference { sink_name self.new ≡ sink_name self.old }
        ensures kept { OnOk result (self.new.kept ≡ None) }
        ensures took { OnOk result (Closes (K.written (sink_of self.old)) (owed_of self.old) self.old.faults self.old.kept (K.written (sink_of self.new)) (owed_of self.new) self.new.faults) }
        ensures stop { IfErr result (λ _. ClosesPart (K.written (sink_of self.old)) (owed_of self.old) self.old.faults self.old.kept (K.written (sink_of self.new))) }
        ensures cause { HasAirCause (K.faults (sink_of self.old)) (K.faults (sink_of self.new)) result }
    {
        match self.kept.take() {
            None => Ok(()),
            Some(kept) => {
                let mut out = LineOut {
                    sink: &mut *self.sink,
                    owed: &mut self.owed,
                    line: &mut self.line,
                    faults: self.faults,
                };
                kept.close(self.alloc, &mut out)
            }
        }
    }

    // Tells the lines of the last frame, where they are not told yet.
    fn flush(&mut self) -> Result<(), AirFault>
        ensures reference { sink_name self.new ≡ sink_name self.old }
        ensures told { OnOk result (TellsLast self.old.faults self.old.kept (K.written (sink_of self.old)) (owed_of self.old) self.new.faults self.new.kept (K.written (sink_of self.new)) (owed_of self.new)) }
        ensures stop { OnErr result (TellsLastPart self.old.faults self.old.kept (K.written (sink_of self.old)) (owed_of self.old) (K.written (sink_of self.new))) }
        ensures cause { HasAirCause (K.faults (sink_of self.old)) (K.faults (sink_of self.new)) result }
    {
        match &mut self.kept {
            None => Ok(()),
            Some(kept) => match kept.last.take() {
                None => Ok(()),
                Some(frame) => {
                    let mut out = LineOut {
                        sink: &mut *self.sink,
                        owed: &mut self.owed,
                        line: &mut self.line,
                        faults: self.faults,
                    };
                    kept.tell_frame(&frame, &mut out)
                }
            },
        }
    }

    // Hears a cell, where all lines before it are told.
    fn tell_cell(&mut self, c: &AirCell) -> Result<(), AirFault>
        ensures reference { sink_name self.new ≡ sink_name self.old }
        ensures told { OnOk result (Tells self.old.faults self.old.kept (K.written (sink_of self.old)) (owed_of self.old) (Cell c.now) self.new.faults self.new.kept (K.written (sink_of self.new)) (owed_of self.new)) }
        ensures stop { OnErr result (TellsPart self.old.faults self.old.kept (K.written (sink_of self.old)) (owed_of self.old) (Cell c.now) (K.written (sink_of self.new))) }
        ensures cause { HasAirCause (K.faults (sink_of self.old)) (K.faults (sink_of self.new)) result }
    {
        match &mut self.kept {
            None => Err(AirFault::NoMemory),
            Some(kept) => {
                let mut out = LineOut {
                    sink: &mut *self.sink,
                    owed: &mut self.owed,
                    line: &mut self.line,
                    faults: self.faults,
                };
                kept.cell(c, &mut out)
            }
        }
    }

    // Hears a measured delay, where all lines before it are told.
    fn tell_delay(&mut self, at: Ticks, side: Side, id: u8, value: i128) -> Result<(), AirFault>
        ensures reference { sink_name self.new ≡ sink_name self.old }
        ensures told { OnOk result (Tells self.old.faults self.old.kept (K.written (sink_of self.old)) (owed_of self.old) (Delay at side id value) self.new.faults self.new.kept (K.written (sink_of self.new)) (owed_of self.new)) }
        ensures stop { OnErr result (TellsPart self.old.faults self.old.kept (K.written (sink_of self.old)) (owed_of self.old) (Delay at side id value) (K.written (sink_of self.new))) }
        ensures cause { HasAirCause (K.faults (sink_of self.old)) (K.faults (sink_of self.new)) result }
    {
        match &mut self.kept {
            None => Err(AirFault::NoMemory),
            Some(kept) => {
                let mut out = LineOut {
                    sink: &mut *self.sink,
                    owed: &mut self.owed,
                    line: &mut self.line,
                    faults: self.faults,
                };
                kept.delay(at, side, id, value, &mut out)
            }
        }
    }

    // Hears a frame, where all lines before it are told, and hands it to its unit.
    fn hear_frame<U: TakesFrames>(
        &mut self,
        side: Side,
        at: Ticks,
        frame: &[u8],
        unit: &mut U,
    ) -> Result<bool, AirFault>
        requires side { side ≡ U.side }
        requires unit { (c : SpecConfig) × (planned : List Allocation) × (h : History) × U.may_take unit.old c planned at.0 h }
        ensures reference { sink_name self.new ≡ sink_name self.old }
        ensures unchanged { sink_of self.new ≡ sink_of self.old }
        ensures heard { OnOk result ((s : Subject) (faults : Bool) (base : Option (List ℕ)) (events : List Event) (planned : List Allocation) (h : History)
            → IsTold s faults base events self.old.faults self.old.kept (K.written (sink_of self.old)) (owed_of self.old)
            → U.may_take unit.old s.config planned at.0 h → h.arrivals ≡ arrivals_heard side [] events
            → IsPending s faults base (events ++ Arrival side at frame.now ∷ []) self.new.faults self.new.kept (K.written (sink_of self.new)) (owed_of self.new)) }
        ensures stop { OnErr result (TellsPart self.old.faults self.old.kept (K.written (sink_of self.old)) (owed_of self.old) (Arrival side at frame.now) (K.written (sink_of self.new))) }
        ensures took { OnOk result ((c : SpecConfig) (planned : List Allocation) (h : History) → U.may_take unit.old c planned at.0 h
            → U.may_take unit.new c planned at.0 (arrived (at_clock h at.0) frame.now)) }
        ensures rests { OnErr result (unit.new ≡ unit.old) }
        ensures delay { IfOk result (λ d. d ≡ has_delay frame.now) }
        ensures wants { IfErr result (λ f. f ≡ WantsMemory) }
    {
        match &mut self.kept {
            None => Err(AirFault::NoMemory),
            Some(kept) => Ok(kept.arrive(side, at, frame, unit)?),
        }
    }

    // Hears the value of a counter, where all lines before it are told.
    fn tell_count(&mut self, side: Side, counter: Counter, value: u64) -> Result<(), AirFault>
        ensures reference { sink_name self.new ≡ sink_name self.old }
        ensures told { OnOk result (Tells self.old.faults self.old.kept (K.written (sink_of self.old)) (owed_of self.old) (Count side counter value) self.new.faults self.new.kept (K.written (sink_of self.new)) (owed_of self.new)) }
        ensures stop { OnErr result (TellsPart self.old.faults self.old.kept (K.written (sink_of self.old)) (owed_of self.old) (Count side counter value) (K.written (sink_of self.new))) }
        ensures cause { HasAirCause (K.faults (sink_of self.old)) (K.faults (sink_of self.new)) result }
    {
        self.close()?;
        self.say(&ExplainLine::Count {
            side,
            counter,
            value,
        })
    }

    // Owes the lines of the configuration.
    fn tell_config(&mut self, config: &Config) -> Result<(), AirFault>
        requires { IsConfig config.now }
        ensures reference { sink_name self.new ≡ sink_name self.old }
        ensures kept { self.new.kept ≡ self.old.kept }
        ensures took { OnOk result (Took self.old.faults (K.written (sink_of self.old)) (owed_of self.old) (first_lines config.now) self.new.faults (K.written (sink_of self.new)) (owed_of self.new)) }
        ensures stop { IfErr result (λ _. WritesFront (K.written (sink_of self.old)) (K.written (sink_of self.new)) (owed_of self.old ++ kept_text self.old.faults (first_lines config.now))) }
        ensures cause { HasAirCause (K.faults (sink_of self.old)) (K.faults (sink_of self.new)) result }
    {
        let mut out = LineOut {
            sink: &mut *self.sink,
            owed: &mut self.owed,
            line: &mut self.line,
            faults: self.faults,
        };
        tell_first(config, &mut out)
    }

    /// Writes or owes what is before the events: the first line, and the lines of the configuration.
    ///
    /// # Errors
    ///
    /// `Failed` exactly where the sink's count of faults rose, `NoMemory` where memory runs out. A front part of the text was written.
    pub fn begin(&mut self, config: &Config) -> Result<(), AirFault>
        requires config { IsConfig config.now }
        requires owed { owed_of self.old ≡ [] }
        ensures reference { sink_name self.new ≡ sink_name self.old }
        ensures heard { OnOk result ((s : Subject) (k : SpecKept) → s.config ≡ config.now → self.old.kept ≡ Some k → HasHeard s [] k
            → IsAfter s self.old.faults (K.written (sink_of self.old)) [] self.new.faults self.new.kept (K.written (sink_of self.new)) (owed_of self.new)) }
        ensures part { OnErr result ((s : Subject) (events : List Event) → s.config ≡ config.now
            → WritesPart (K.written (sink_of self.old)) (K.written (sink_of self.new)) (explain_of self.old.faults s.config (reasons_of s events) events)) }
        ensures cause { HasAirCause (K.faults (sink_of self.old)) (K.faults (sink_of self.new)) result }
    {
        let faults = self.faults;
        self.say(&ExplainLine::Head { faults })?;
        self.tell_config(config)
    }

    /// Writes what is owed, what is after the last event and the line `end`, and then owes nothing.
    ///
    /// # Errors
    ///
    /// `Failed` exactly where the sink's count of faults rose, `NoMemory` where memory runs out. A front part of the text was written.
    pub fn finish(&mut self) -> Result<(), AirFault>
        ensures reference { sink_name self.new ≡ sink_name self.old }
        ensures all { OnOk result ((s : Subject) (faults : Bool) (base : Option (List ℕ)) (events : List Event) → IsAfter s faults base events self.old.faults self.old.kept (K.written (sink_of self.old)) (owed_of self.old)
            → K.written (sink_of self.new) ≡ append_known base (explain_of faults s.config (reasons_of s events) events)) }
        ensures part { OnErr result ((s : Subject) (faults : Bool) (base : Option (List ℕ)) (events : List Event) → IsAfter s faults base events self.old.faults self.old.kept (K.written (sink_of self.old)) (owed_of self.old)
            → WritesPart base (K.written (sink_of self.new)) (explain_of faults s.config (reasons_of s events) events)) }
        // Each frame that it heard has a number of 32 bits.
        ensures few { OnOk result ((s : Subject) (faults : Bool) (base : Option (List ℕ)) (events : List Event) → IsAfter s faults base events self.old.faults self.old.kept (K.written (sink_of self.old)) (owed_of self.old)
            → arrival_count events < 2 ^ 32) }
        ensures cause { HasAirCause (K.faults (sink_of self.old)) (K.faults (sink_of self.new)) result }
    {
        self.flush()?;
        self.close()?;
        self.say(&ExplainLine::End)?;
        push_out(&mut self.owed, self.sink)
    }

    /// Lets the air go, and gives the reference to the sink back.
    pub fn into_sink(self) -> &'a mut K
        ensures reference { result.ghost_name ≡ sink_name self.entry }
        ensures unchanged { result.now ≡ sink_of self.entry }
    {
        let ExplainAir {
            alloc: _,
            sink,
            owed,
            line,
            faults: _,
            kept,
        } = self;
        drop(owed);
        drop(line);
        drop(kept);
        sink
    }
}

impl<'a, K: Sink> ListeningAir for ExplainAir<'a, K> {
    ghost use Rattle.explain_air.specs.Airs.{sink_name, sink_of, owed_of};

    ghost faults = { λ a. K.faults (sink_of a) };

    ghost grew = { λ c earlier a events b. Grew c earlier a.faults a.kept (K.written (sink_of a)) (owed_of a) events b.faults b.kept (K.written (sink_of b)) (owed_of b) };

    ghost stopped = { λ _ a event b. Stopped a.faults a.kept (K.written (sink_of a)) (owed_of a) event (K.written (sink_of b)) };

    ghost same = { λ a b. sink_name b ≡ sink_name a };

    ghost grew_none = { λ c earlier a. grew_none c earlier a.faults a.kept (K.written (sink_of a)) (owed_of a) };

    ghost grew_more = { λ c earlier a b d first second. grew_more c earlier a.faults b.faults d.faults a.kept b.kept d.kept (K.written (sink_of a)) (K.written (sink_of b)) (K.written (sink_of d)) (owed_of a) (owed_of b) (owed_of d) first second };

    ghost same_none = { λ a. refl };

    ghost same_more = { λ a b c first second. second ∙ first };

    /// Hears a cell: where it ends a run, the line of that is written or owed.
    fn cell(&mut self, c: &AirCell) -> Result<(), AirFault> {
        self.flush()?;
        self.tell_cell(c)
    }

    /// Hears a measured delay: its line is written or owed.
    fn delay(&mut self, at: Ticks, side: Side, id: u8, value: i128) -> Result<(), AirFault> {
        self.flush()?;
        self.tell_delay(at, side, id, value)
    }

    /// Hears a frame: its line and those of what its unit judges of it are written or owed at the next event, or at the end.
    fn arrival<U: TakesFrames>(
        &mut self,
        side: Side,
        at: Ticks,
        frame: &[u8],
        unit: &mut U,
    ) -> Result<bool, AirFault> {
        self.flush()?;
        self.hear_frame(side, at, frame, unit)
    }

    /// Hears the value of a counter: what is before the counters and its line are written or owed.
    fn count(&mut self, side: Side, counter: Counter, value: u64) -> Result<(), AirFault> {
        self.flush()?;
        self.tell_count(side, counter, value)
    }
}
