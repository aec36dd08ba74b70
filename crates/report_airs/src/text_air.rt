// The air that writes a report.
ghost use Rattle.std.specs.Prelude.{◌≡◌, [], ◌∷◌, ◌++◌, refl, OnOk, OnErr, IfErr};
ghost use Rattle.std.proofs.Common.{◌∙◌};
ghost use Rattle.std.specs.Io.KnownBytes.{append_known};
ghost use Rattle.fh_base.specs.Told.{WritesFront, WritesPart};
ghost use Rattle.air_source.specs.Causes.{HasAirCause};
ghost use Rattle.fh_base.specs.Owed.{Carried};
ghost use Rattle.air_source.specs.SinkCauses.{HasRefusal};
ghost use Rattle.air_source.specs.Stopping.{Halted};
ghost use Rattle.report_airs.specs.Text.{event_text, events_text, end_text};
ghost use Rattle.report_airs.specs.OwedLaws.{grew_none, grew_more};

use air_source::{Air, AirCell, AirFault, ReportLine, Side, push_out, tell};
use fault_counters::Counter;
use fh_base::{OwedBytes, Sink, Ticks};

/// An air that writes a line for each event to a sink that it borrows, none for an arrival.
///
/// It owes up to 8,192 bytes to the sink. [`finish`](TextAir::finish) writes them; where the air is
/// dropped without it, or stopped in an event, what is owed is not written.
#[derive(Drop)]
pub struct TextAir<'a, K> {
    sink: &'a mut K,
    owed: OwedBytes,
    // the line of the last event, which is written where it is
    line: ReportLine,
}

impl<'a, K: Sink> TextAir<'a, K> {
    ghost use Rattle.report_airs.specs.TextAirs.{sink_name, sink_of, owed_of, line_of};

    /// An air that wrote nothing and owes nothing. This takes no memory.
    pub fn new(sink: &'a mut K) -> TextAir<'a, K>
        ensures reference { sink_name result ≡ sink.entry.ghost_name }
        ensures unchanged { sink_of result ≡ sink.old }
        ensures owed { owed_of result ≡ [] }
    {
        TextAir {
            sink,
            owed: OwedBytes::new(),
            line: ReportLine::new(),
        }
    }

    // Owes the line after what is owed.
    fn tell(&mut self) -> Result<(), AirFault>
        ensures reference { sink_name self.new ≡ sink_name self.old }
        ensures carried { OnOk result (Carried (K.written (sink_of self.old)) (owed_of self.old) (line_of self.old) (K.written (sink_of self.new)) (owed_of self.new)) }
        ensures stop { IfErr result (λ f. Halted f (K.written (sink_of self.old)) (K.faults (sink_of self.old)) (K.refusals (sink_of self.old)) (owed_of self.old) (line_of self.old) (K.written (sink_of self.new)) (K.faults (sink_of self.new)) (K.refusals (sink_of self.new))) }
        ensures cause { HasAirCause (K.faults (sink_of self.old)) (K.faults (sink_of self.new)) result }
        ensures refusal { HasRefusal (K.refusals (sink_of self.old)) (K.refusals (sink_of self.new)) result }
    {
        tell(&mut self.owed, self.line.as_slice(), self.sink)
    }

    // Writes what is owed.
    fn push_out(&mut self) -> Result<(), AirFault>
        ensures reference { sink_name self.new ≡ sink_name self.old }
        ensures all { OnOk result (K.written (sink_of self.new) ≡ append_known (K.written (sink_of self.old)) (owed_of self.old)) }
        ensures owed { OnOk result (owed_of self.new ≡ []) }
        ensures front { WritesFront (K.written (sink_of self.old)) (K.written (sink_of self.new)) (owed_of self.old) }
        ensures part { OnErr result (WritesPart (K.written (sink_of self.old)) (K.written (sink_of self.new)) (owed_of self.old)) }
        ensures cause { HasAirCause (K.faults (sink_of self.old)) (K.faults (sink_of self.new)) result }
        ensures refusal { HasRefusal (K.refusals (sink_of self.old)) (K.refusals (sink_of self.new)) result }
    {
        push_out(&mut self.owed, self.sink)
    }

    /// Writes what is owed and the line `end`, and then owes nothing. After an error a front part of these was
    /// written and not all.
    ///
    /// # Errors
    ///
    /// `Failed` exactly where the sink's count of faults rose, and `NoMemory` exactly where its count
    /// of refusals rose.
    pub fn finish(&mut self) -> Result<(), AirFault>
        ensures reference { sink_name self.new ≡ sink_name self.old }
        ensures all { OnOk result (K.written (sink_of self.new) ≡ append_known (K.written (sink_of self.old)) (owed_of self.old ++ end_text)) }
        ensures front { WritesFront (K.written (sink_of self.old)) (K.written (sink_of self.new)) (owed_of self.old ++ end_text) }
        ensures part { OnErr result (WritesPart (K.written (sink_of self.old)) (K.written (sink_of self.new)) (owed_of self.old ++ end_text)) }
        ensures cause { HasAirCause (K.faults (sink_of self.old)) (K.faults (sink_of self.new)) result }
        ensures refusal { HasRefusal (K.refusals (sink_of self.old)) (K.refusals (sink_of self.new)) result }
        ensures owed { OnOk result (owed_of self.new ≡ []) }
    {
        self.line.put_text(b"end\n");
        self.tell()?;
        self.push_out()
    }
}

impl<'a, K: Sink> Air for TextAir<'a, K> {
    ghost use Rattle.report_airs.specs.TextAirs.{sink_name, sink_of, owed_of};

    ghost faults = { λ a. K.faults (sink_of a) };

    ghost grew = { λ a events b. Carried (K.written (sink_of a)) (owed_of a) (events_text events) (K.written (sink_of b)) (owed_of b) };

    ghost stopped = { λ f a event b. Halted f (K.written (sink_of a)) (K.faults (sink_of a)) (K.refusals (sink_of a)) (owed_of a) (event_text event) (K.written (sink_of b)) (K.faults (sink_of b)) (K.refusals (sink_of b)) };

    ghost same = { λ a b. sink_name b ≡ sink_name a };

    ghost grew_none = { λ a. grew_none event_text (K.written (sink_of a)) (owed_of a) };

    ghost grew_more = { λ a b c first second. grew_more event_text (K.written (sink_of a)) (K.written (sink_of b)) (K.written (sink_of c)) (owed_of a) (owed_of b) (owed_of c) first second };

    ghost same_none = { λ a. refl };

    ghost same_more = { λ a b c first second. second ∙ first };

    /// Hears a cell: its line is written or owed.
    fn cell(&mut self, c: &AirCell) -> Result<(), AirFault> {
        self.line.put_cell(c);
        self.tell()
    }

    /// Hears a measured delay: its line is written or owed.
    fn delay(&mut self, at: Ticks, side: Side, id: u8, value: i128) -> Result<(), AirFault> {
        self.line.put_delay(at, side, id, value);
        self.tell()
    }

    /// Hears a frame, of which a report says nothing.
    fn arrival(&mut self, _side: Side, _at: Ticks, _frame: &[u8]) -> Result<(), AirFault> {
        Ok(())
    }

    /// Hears the value of a counter: its line is written or owed, at 0 too.
    fn count(&mut self, side: Side, counter: Counter, value: u64) -> Result<(), AirFault> {
        self.line.put_count(side, counter, value);
        self.tell()
    }
}
