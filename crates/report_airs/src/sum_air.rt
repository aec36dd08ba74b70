// The air that writes a summary.
ghost use Rattle.std.specs.Prelude.{◌≡◌, [], ◌∷◌, ◌++◌, refl, OnOk, OnErr, IfOk, IfErr};
ghost use Rattle.std.proofs.Common.{◌∙◌};
ghost use Rattle.std.specs.Io.KnownBytes.{append_known};
ghost use Rattle.fh_base.specs.Told.{WritesFront, WritesPart};
ghost use Rattle.air_source.specs.Causes.{HasAirCause};
ghost use Rattle.fh_base.specs.Owed.{Carried};
ghost use Rattle.air_source.specs.SinkCauses.{HasRefusal};
ghost use Rattle.air_source.specs.Stopping.{Halted};
ghost use Rattle.air_source.specs.UnitLines.{count_text};
ghost use Rattle.report_airs.specs.States.{sum_start, sum_gives, sum_ends, closing_text, after_closing};
ghost use Rattle.report_airs.specs.SumLaws.{Heard, grew_none, grew_more};

use crate::run_lines::put_run;
use crate::sums::Sums;
use air_source::{Air, AirCell, AirFault, Side, push_out, put_count, tell};
use fault_counters::Counter;
use fh_base::{Line, NoMemory, OwedBytes, Sink, Ticks};
use std::alloc::Global;

/// An air that writes a summary to a sink that it borrows.
///
/// It owes up to 8,192 bytes to the sink. [`finish`](SumAir::finish) writes them and what is after the last event; where
/// the air is let go without it, or stopped in an event, what is owed is not written. Who lent the sink ends with
/// [`into_sink`](SumAir::into_sink), which says what became of it.
#[derive(Drop)]
pub struct SumAir<'a, K> {
    sink: &'a mut K,
    owed: OwedBytes,
    // the line that is told next, which is written where it is
    line: Line,
    sums: Sums,
}

impl<'a, K: Sink> SumAir<'a, K> {
    ghost use Rattle.report_airs.specs.SumAirs.{sink_name, sink_of, owed_of, line_of, sums_of};

    /// An air that heard nothing, wrote nothing and owes nothing. This takes all the memory that it will need.
    ///
    /// Where memory is refused, the reference to the sink is not given back: who needs the sink then calls [`Sums::make`] and
    /// [`SumAir::over`].
    pub fn new(alloc: Global, sink: &'a mut K) -> Result<SumAir<'a, K>, NoMemory>
        ensures reference { IfOk result (λ a. sink_name a ≡ sink.entry.ghost_name) }
        ensures unchanged { IfOk result (λ a. sink_of a ≡ sink.old) }
        ensures owed { IfOk result (λ a. owed_of a ≡ []) }
        ensures sums { IfOk result (λ a. sums_of a ≡ sum_start) }
    {
        let sums = Sums::make(alloc)?;
        Ok(SumAir::over(sums, sink))
    }

    /// An air that heard what these sums tell, wrote nothing and owes nothing. This takes no memory.
    pub fn over(sums: Sums, sink: &'a mut K) -> SumAir<'a, K>
        ensures reference { sink_name result ≡ sink.entry.ghost_name }
        ensures unchanged { sink_of result ≡ sink.old }
        ensures owed { owed_of result ≡ [] }
        ensures sums { sums_of result ≡ sums }
    {
        SumAir {
            sink,
            owed: OwedBytes::new(),
            line: Line::new(),
            sums,
        }
    }

    // Owes the line after what is owed.
    fn owe(&mut self) -> Result<(), AirFault>
        ensures reference { sink_name self.new ≡ sink_name self.old }
        ensures sums { sums_of self.new ≡ sums_of self.old }
        ensures carried { OnOk result (Carried (K.written (sink_of self.old)) (owed_of self.old) (line_of self.old) (K.written (sink_of self.new)) (owed_of self.new)) }
        ensures stop { IfErr result (λ f. Halted f (K.written (sink_of self.old)) (K.faults (sink_of self.old)) (K.refusals (sink_of self.old)) (owed_of self.old) (line_of self.old) (K.written (sink_of self.new)) (K.faults (sink_of self.new)) (K.refusals (sink_of self.new))) }
        ensures cause { HasAirCause (K.faults (sink_of self.old)) (K.faults (sink_of self.new)) result }
        ensures refusal { HasRefusal (K.refusals (sink_of self.old)) (K.refusals (sink_of self.new)) result }
    {
        tell(&mut self.owed, self.line.as_slice(), self.sink)
    }

    // Owes the lines that are before the counters, where they are not written yet.
    fn close(&mut self) -> Result<(), AirFault>
        ensures reference { sink_name self.new ≡ sink_name self.old }
        ensures sums { OnOk result (sums_of self.new ≡ after_closing (sums_of self.old)) }
        ensures carried { OnOk result (Carried (K.written (sink_of self.old)) (owed_of self.old) (closing_text (sums_of self.old)) (K.written (sink_of self.new)) (owed_of self.new)) }
        ensures stop { IfErr result (λ f. Halted f (K.written (sink_of self.old)) (K.faults (sink_of self.old)) (K.refusals (sink_of self.old)) (owed_of self.old) (closing_text (sums_of self.old)) (K.written (sink_of self.new)) (K.faults (sink_of self.new)) (K.refusals (sink_of self.new))) }
        ensures cause { HasAirCause (K.faults (sink_of self.old)) (K.faults (sink_of self.new)) result }
        ensures refusal { HasRefusal (K.refusals (sink_of self.old)) (K.refusals (sink_of self.new)) result }
    {
        self.sums.put_closing(&mut self.line);
        self.sums.close();
        self.owe()
    }

    // Owes what is before the counters, and the line of a counter.
    fn owe_count(&mut self, side: Side, counter: Counter, value: u64) -> Result<(), AirFault>
        ensures reference { sink_name self.new ≡ sink_name self.old }
        ensures sums { OnOk result (sums_of self.new ≡ after_closing (sums_of self.old)) }
        ensures carried { OnOk result (Carried (K.written (sink_of self.old)) (owed_of self.old) (closing_text (sums_of self.old) ++ count_text side counter value) (K.written (sink_of self.new)) (owed_of self.new)) }
        ensures stop { IfErr result (λ f. Halted f (K.written (sink_of self.old)) (K.faults (sink_of self.old)) (K.refusals (sink_of self.old)) (owed_of self.old) (closing_text (sums_of self.old) ++ count_text side counter value) (K.written (sink_of self.new)) (K.faults (sink_of self.new)) (K.refusals (sink_of self.new))) }
        ensures cause { HasAirCause (K.faults (sink_of self.old)) (K.faults (sink_of self.new)) result }
    {
        self.close()?;
        put_count(side, counter, value, &mut self.line);
        self.owe()
    }

    /// Writes what is owed, what is after the last event and the line `end`, and then owes nothing. After an error a front
    /// part of these was written and not all.
    ///
    /// # Errors
    ///
    /// `Failed` exactly where the sink's count of faults rose, and `NoMemory` exactly where its count of refusals rose.
    pub fn finish(&mut self) -> Result<(), AirFault>
        ensures reference { sink_name self.new ≡ sink_name self.old }
        ensures all { OnOk result (K.written (sink_of self.new) ≡ append_known (K.written (sink_of self.old)) (owed_of self.old ++ sum_ends (sums_of self.old))) }
        ensures front { WritesFront (K.written (sink_of self.old)) (K.written (sink_of self.new)) (owed_of self.old ++ sum_ends (sums_of self.old)) }
        ensures part { OnErr result (WritesPart (K.written (sink_of self.old)) (K.written (sink_of self.new)) (owed_of self.old ++ sum_ends (sums_of self.old))) }
        ensures cause { HasAirCause (K.faults (sink_of self.old)) (K.faults (sink_of self.new)) result }
        ensures refusal { HasRefusal (K.refusals (sink_of self.old)) (K.refusals (sink_of self.new)) result }
        ensures owed { OnOk result (owed_of self.new ≡ []) }
    {
        self.sums.put_closing(&mut self.line);
        self.line.text(b"end\n");
        self.owe()?;
        push_out(&mut self.owed, self.sink)
    }

    /// Lets the air go, and gives the reference to the sink back.
    pub fn into_sink(self) -> &'a mut K
        ensures reference { result.ghost_name ≡ sink_name self.entry }
        ensures unchanged { result.now ≡ sink_of self.entry }
    {
        let SumAir {
            sink,
            owed,
            line,
            sums,
        } = self;
        drop(owed);
        drop(line);
        drop(sums);
        sink
    }
}

impl<'a, K: Sink> Air for SumAir<'a, K> {
    ghost use Rattle.report_airs.specs.SumAirs.{sink_name, sink_of, owed_of, sums_of};

    ghost faults = { λ a. K.faults (sink_of a) };

    ghost grew = { λ a events b. Heard (sums_of a) (K.written (sink_of a)) (owed_of a) events (sums_of b) (K.written (sink_of b)) (owed_of b) };

    ghost stopped = { λ f a event b. Halted f (K.written (sink_of a)) (K.faults (sink_of a)) (K.refusals (sink_of a)) (owed_of a) (sum_gives (sums_of a) event) (K.written (sink_of b)) (K.faults (sink_of b)) (K.refusals (sink_of b)) };

    ghost same = { λ a b. sink_name b ≡ sink_name a };

    ghost grew_none = { λ a. grew_none (sums_of a) (K.written (sink_of a)) (owed_of a) };

    ghost grew_more = { λ a b c first second. grew_more (sums_of a) (sums_of b) (sums_of c) (K.written (sink_of a)) (K.written (sink_of b)) (K.written (sink_of c)) (owed_of a) (owed_of b) (owed_of c) first second };

    ghost same_none = { λ a. refl };

    ghost same_more = { λ a b c first second. second ∙ first };

    /// Hears a cell: where it ends a run, the line of that is written or owed.
    fn cell(&mut self, c: &AirCell) -> Result<(), AirFault> {
        match self.sums.cell(c) {
            None => Ok(()),
            Some(ended) => {
                put_run(&ended, &mut self.line);
                self.owe()
            }
        }
    }

    /// Hears a measured delay, which is kept.
    fn delay(&mut self, _at: Ticks, side: Side, _id: u8, value: i128) -> Result<(), AirFault> {
        self.sums.delay(side, value);
        Ok(())
    }

    /// Hears a frame, of which a summary says nothing.
    fn arrival(&mut self, _side: Side, _at: Ticks, _frame: &[u8]) -> Result<(), AirFault> {
        Ok(())
    }

    /// Hears the value of a counter: what is before the counters and its line are written or owed, at 0 too.
    fn count(&mut self, side: Side, counter: Counter, value: u64) -> Result<(), AirFault> {
        self.owe_count(side, counter, value)
    }
}
