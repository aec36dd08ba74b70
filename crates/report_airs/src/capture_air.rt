// The air that writes a capture.
ghost use Rattle.std.specs.Prelude.{◌≡◌, ◌≢◌, [], ◌++◌, ◌<◌, ◌≤◌, ◌^◌, refl, length, OnOk, OnErr, IfErr};
ghost use Rattle.std.proofs.Common.{◌∙◌};
ghost use Rattle.std.specs.Io.KnownBytes.{append_known};
ghost use Rattle.fh_base.specs.Told.{WritesFront, WritesPart};
ghost use Rattle.air_source.specs.Causes.{HasAirCause};
ghost use Rattle.fh_base.specs.Owed.{Carried};
ghost use Rattle.air_source.specs.SinkCauses.{HasRefusal};
ghost use Rattle.air_source.specs.Stopping.{Halted};
ghost use Rattle.capture_records.specs.Records.{head_bytes};
ghost use Rattle.report_airs.specs.Capture.{event_record, events_records};
ghost use Rattle.report_airs.specs.CaptureLaws.{grew_none, grew_more};
ghost use Rattle.report_airs.specs.Recorded.{Recorded};

use air_source::{Air, AirCell, AirFault, Side, push_out};
use capture_records::{MAGIC, record_head};
use fault_counters::Counter;
use fh_base::{OwedBytes, ROOM, Sink, SinkFault, Ticks};

/// An air that writes a record for each arrival to a sink that it borrows, and nothing for other events.
///
/// It owes up to 8,192 bytes to the sink, at first the magic and then at least the last byte of the last record.
/// [`finish`](CaptureAir::finish) writes them; where the air is dropped without it, or stopped in an event, what is owed is
/// not written. So a capture is complete only once `finish` answers Ok.
#[derive(Drop)]
pub struct CaptureAir<'a, K> {
    sink: &'a mut K,
    owed: OwedBytes,
}

impl<'a, K: Sink> CaptureAir<'a, K> {
    ghost use Rattle.report_airs.specs.CaptureAirs.{sink_name, sink_of, owed_of};

    /// An air that wrote nothing and owes the magic. This takes no memory.
    pub fn new(sink: &'a mut K) -> CaptureAir<'a, K>
        ensures reference { sink_name result ≡ sink.entry.ghost_name }
        ensures unchanged { sink_of result ≡ sink.old }
        ensures owed { owed_of result ≡ MAGIC }
    {
        let mut owed = OwedBytes::new();
        // the magic fits the room, so nothing is written
        let _ = owed.tell(&MAGIC, sink);
        CaptureAir { sink, owed }
    }

    // Owes bytes after what is owed. Where they have no more than the room they stay owed, alone or with what was owed.
    fn owe(&mut self, bytes: &[u8]) -> Result<(), AirFault>
        ensures reference { sink_name self.new ≡ sink_name self.old }
        ensures carried { OnOk result (Carried (K.written (sink_of self.old)) (owed_of self.old) bytes.now (K.written (sink_of self.new)) (owed_of self.new)) }
        ensures owing { OnOk result (0 < length bytes.now → length bytes.now ≤ ROOM → owed_of self.new ≢ []) }
        ensures stop { IfErr result (λ f. Halted f (K.written (sink_of self.old)) (K.faults (sink_of self.old)) (K.refusals (sink_of self.old)) (owed_of self.old) bytes.now (K.written (sink_of self.new)) (K.faults (sink_of self.new)) (K.refusals (sink_of self.new))) }
        ensures cause { HasAirCause (K.faults (sink_of self.old)) (K.faults (sink_of self.new)) result }
        ensures refusal { HasRefusal (K.refusals (sink_of self.old)) (K.refusals (sink_of self.new)) result }
    {
        match self.owed.tell(bytes, self.sink) {
            Ok(()) => Ok(()),
            Err(SinkFault::Failed) => Err(AirFault::Failed),
            Err(SinkFault::NoMemory) => Err(AirFault::NoMemory),
        }
    }

    // Owes a frame after what is owed. Its last byte is owed by a call of its own, since a frame that is longer than the room is
    // written whole.
    fn owe_frame(&mut self, frame: &[u8]) -> Result<(), AirFault>
        ensures reference { sink_name self.new ≡ sink_name self.old }
        ensures recorded { OnOk result (Recorded (K.written (sink_of self.old)) (owed_of self.old) frame.now (K.written (sink_of self.new)) (owed_of self.new)) }
        ensures stop { IfErr result (λ f. Halted f (K.written (sink_of self.old)) (K.faults (sink_of self.old)) (K.refusals (sink_of self.old)) (owed_of self.old) frame.now (K.written (sink_of self.new)) (K.faults (sink_of self.new)) (K.refusals (sink_of self.new))) }
        ensures cause { HasAirCause (K.faults (sink_of self.old)) (K.faults (sink_of self.new)) result }
    {
        if frame.is_empty() {
            return Ok(());
        }
        let (front, last) = frame.split_at(frame.len() - 1);
        self.owe(front)?;
        self.owe(last)
    }

    // Owes the record of an arrival after what is owed.
    fn record(&mut self, side: Side, at: Ticks, frame: &[u8]) -> Result<(), AirFault>
        requires { length frame.now < 2 ^ 32 }
        ensures reference { sink_name self.new ≡ sink_name self.old }
        ensures recorded { OnOk result (Recorded (K.written (sink_of self.old)) (owed_of self.old) (head_bytes side at.0 (length frame.now) ++ frame.now) (K.written (sink_of self.new)) (owed_of self.new)) }
        ensures stop { IfErr result (λ f. Halted f (K.written (sink_of self.old)) (K.faults (sink_of self.old)) (K.refusals (sink_of self.old)) (owed_of self.old) (head_bytes side at.0 (length frame.now) ++ frame.now) (K.written (sink_of self.new)) (K.faults (sink_of self.new)) (K.refusals (sink_of self.new))) }
        ensures cause { HasAirCause (K.faults (sink_of self.old)) (K.faults (sink_of self.new)) result }
    {
        self.owe(&record_head(side, at, frame.len() as u32))?;
        self.owe_frame(frame)
    }

    /// Writes what is owed, and then owes nothing. After an error a front part of it was written and not all.
    ///
    /// # Errors
    ///
    /// `Failed` exactly where the sink's count of faults rose, and `NoMemory` exactly where its count of refusals rose.
    pub fn finish(&mut self) -> Result<(), AirFault>
        ensures reference { sink_name self.new ≡ sink_name self.old }
        ensures all { OnOk result (K.written (sink_of self.new) ≡ append_known (K.written (sink_of self.old)) (owed_of self.old)) }
        ensures owed { OnOk result (owed_of self.new ≡ []) }
        ensures front { WritesFront (K.written (sink_of self.old)) (K.written (sink_of self.new)) (owed_of self.old) }
        ensures part { OnErr result (WritesPart (K.written (sink_of self.old)) (K.written (sink_of self.new)) (owed_of self.old)) }
        ensures cause { HasAirCause (K.faults (sink_of self.old)) (K.faults (sink_of self.new)) result }
        ensures refusal { HasRefusal (K.refusals (sink_of self.old)) (K.refusals (sink_of self.new)) result }
    {
        push_out(&mut self.owed, self.sink)
    }
}

impl<'a, K: Sink> Air for CaptureAir<'a, K> {
    ghost use Rattle.report_airs.specs.CaptureAirs.{sink_name, sink_of, owed_of};

    ghost faults = { λ a. K.faults (sink_of a) };

    ghost grew = { λ a events b. Recorded (K.written (sink_of a)) (owed_of a) (events_records events) (K.written (sink_of b)) (owed_of b) };

    ghost stopped = { λ f a event b. Halted f (K.written (sink_of a)) (K.faults (sink_of a)) (K.refusals (sink_of a)) (owed_of a) (event_record event) (K.written (sink_of b)) (K.faults (sink_of b)) (K.refusals (sink_of b)) };

    ghost same = { λ a b. sink_name b ≡ sink_name a };

    ghost grew_none = { λ a. grew_none (K.written (sink_of a)) (owed_of a) };

    ghost grew_more = { λ a b c first second. grew_more (K.written (sink_of a)) (K.written (sink_of b)) (K.written (sink_of c)) (owed_of a) (owed_of b) (owed_of c) first second };

    ghost same_none = { λ a. refl };

    ghost same_more = { λ a b c first second. second ∙ first };

    /// Hears a cell, of which a capture says nothing.
    fn cell(&mut self, _c: &AirCell) -> Result<(), AirFault> {
        Ok(())
    }

    /// Hears a measured delay, of which a capture says nothing.
    fn delay(&mut self, _at: Ticks, _side: Side, _id: u8, _value: i128) -> Result<(), AirFault> {
        Ok(())
    }

    /// Hears a frame: its record is written or owed.
    fn arrival(&mut self, side: Side, at: Ticks, frame: &[u8]) -> Result<(), AirFault> {
        self.record(side, at, frame)
    }

    /// Hears the value of a counter, of which a capture says nothing.
    fn count(&mut self, _side: Side, _counter: Counter, _value: u64) -> Result<(), AirFault> {
        Ok(())
    }
}
