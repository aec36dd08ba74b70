// The air of one unit of a shared cell.
ghost use Rattle.std.specs.Prelude.{◌≡◌, [], ◌∷◌, ◌++◌, refl, OnOk, OnErr, IfErr};
ghost use Rattle.std.proofs.Common.{◌∙◌};
ghost use Rattle.std.specs.Io.KnownBytes.{append_known};
ghost use Rattle.fh_base.specs.Told.{WritesFront, WritesPart};
ghost use Rattle.air_source.specs.Causes.{HasAirCause};
ghost use Rattle.air_source.specs.declared.airs.AirFault.TheVariants.{NoMemory as WantsMemory};
ghost use Rattle.fh_base.specs.Owed.{Carried};
ghost use Rattle.shared_cell.specs.Joined.{taken};
ghost use Rattle.document_texts.specs.Lines.{unit_text};
ghost use Rattle.document_texts.specs.Stopping.{Ceased};
ghost use Rattle.document_texts.specs.UnitText.{all_taken, unit_event_text, unit_events_text};
ghost use Rattle.document_texts.specs.Laws.{Heard, grew_none, grew_more};

use crate::units::put_unit;
use air_source::{Air, AirCell, AirFault, Side, push_out, put_cell, put_count, tell};
use fault_counters::Counter;
use fh_base::{Line, OwedBytes, Sink, Ticks};
use shared_cell::Mixer;

/// An air that writes a line for each cell and each counter of the radio unit to a sink that it borrows, and adds each cell of the
/// distributed unit to a mixer that it borrows.
///
/// It owes up to 8,192 bytes to the sink. [`finish`](UnitAir::finish) writes them; where the air is dropped without it, or stopped in an
/// event, what is owed is not written.
#[derive(Drop)]
pub struct UnitAir<'a, K> {
    sink: &'a mut K,
    mixer: &'a mut Mixer,
    owed: OwedBytes,
    // the line of the last event, which is written in place
    line: Line,
}

impl<'a, K: Sink> UnitAir<'a, K> {
    ghost use Rattle.document_texts.specs.Airs.{sink_name, sink_of, mixer_name, mixer_of, owed_of, line_of};

    /// An air that wrote nothing and owes nothing. This takes no memory.
    pub fn new(sink: &'a mut K, mixer: &'a mut Mixer) -> UnitAir<'a, K>
        ensures sink_reference { sink_name result ≡ sink.entry.ghost_name }
        ensures mixer_reference { mixer_name result ≡ mixer.entry.ghost_name }
        ensures sink { sink_of result ≡ sink.old }
        ensures mixer { mixer_of result ≡ mixer.old }
        ensures owed { owed_of result ≡ [] }
    {
        UnitAir {
            sink,
            mixer,
            owed: OwedBytes::new(),
            line: Line::new(),
        }
    }

    // Owes the line after what is owed.
    fn tell(&mut self) -> Result<(), AirFault>
        ensures sink_reference { sink_name self.new ≡ sink_name self.old }
        ensures mixer_reference { mixer_name self.new ≡ mixer_name self.old }
        ensures mixer { mixer_of self.new ≡ mixer_of self.old }
        ensures carried { OnOk result (Carried (K.written (sink_of self.old)) (owed_of self.old) (line_of self.old) (K.written (sink_of self.new)) (owed_of self.new)) }
        ensures stop { IfErr result (λ f. Ceased f (K.written (sink_of self.old)) (K.faults (sink_of self.old)) (owed_of self.old) (line_of self.old) (K.written (sink_of self.new)) (K.faults (sink_of self.new))) }
        ensures part { OnErr result (WritesPart (K.written (sink_of self.old)) (K.written (sink_of self.new)) (owed_of self.old ++ line_of self.old)) }
        ensures cause { HasAirCause (K.faults (sink_of self.old)) (K.faults (sink_of self.new)) result }
    {
        tell(&mut self.owed, self.line.as_slice(), self.sink)
    }

    // Adds a cell of the distributed unit to the mixer.
    fn mix(&mut self, c: &AirCell) -> Result<(), AirFault>
        ensures sink_reference { sink_name self.new ≡ sink_name self.old }
        ensures mixer_reference { mixer_name self.new ≡ mixer_name self.old }
        ensures sink { sink_of self.new ≡ sink_of self.old }
        ensures owed { owed_of self.new ≡ owed_of self.old }
        ensures mixer { OnOk result (mixer_of self.new ≡ taken c.now (mixer_of self.old)) }
        ensures wants { IfErr result (λ f. f ≡ WantsMemory) }
        ensures cause { HasAirCause (K.faults (sink_of self.old)) (K.faults (sink_of self.new)) result }
    {
        self.mixer.try_add(c)?;
        Ok(())
    }

    /// Owes the line above what a unit writes.
    ///
    /// # Errors
    ///
    /// `Failed` exactly where the sink's count of faults rose. A front part of what was owed and of the line was written and not all.
    pub fn begin(&mut self, unit: u8) -> Result<(), AirFault>
        ensures sink_reference { sink_name self.new ≡ sink_name self.old }
        ensures mixer_reference { mixer_name self.new ≡ mixer_name self.old }
        ensures mixer { mixer_of self.new ≡ mixer_of self.old }
        ensures carried { OnOk result (Carried (K.written (sink_of self.old)) (owed_of self.old) (unit_text unit) (K.written (sink_of self.new)) (owed_of self.new)) }
        ensures front { OnErr result (WritesFront (K.written (sink_of self.old)) (K.written (sink_of self.new)) (owed_of self.old ++ unit_text unit)) }
        ensures part { OnErr result (WritesPart (K.written (sink_of self.old)) (K.written (sink_of self.new)) (owed_of self.old ++ unit_text unit)) }
        ensures cause { HasAirCause (K.faults (sink_of self.old)) (K.faults (sink_of self.new)) result }
    {
        put_unit(unit, &mut self.line);
        self.tell()
    }

    /// Writes what is owed, and then owes nothing. After an error a front part of it was written and not all.
    ///
    /// # Errors
    ///
    /// `Failed` exactly where the sink's count of faults rose.
    pub fn finish(&mut self) -> Result<(), AirFault>
        ensures sink_reference { sink_name self.new ≡ sink_name self.old }
        ensures mixer_reference { mixer_name self.new ≡ mixer_name self.old }
        ensures mixer { mixer_of self.new ≡ mixer_of self.old }
        ensures all { OnOk result (K.written (sink_of self.new) ≡ append_known (K.written (sink_of self.old)) (owed_of self.old)) }
        ensures front { WritesFront (K.written (sink_of self.old)) (K.written (sink_of self.new)) (owed_of self.old) }
        ensures part { OnErr result (WritesPart (K.written (sink_of self.old)) (K.written (sink_of self.new)) (owed_of self.old)) }
        ensures owed { OnOk result (owed_of self.new ≡ []) }
        ensures cause { HasAirCause (K.faults (sink_of self.old)) (K.faults (sink_of self.new)) result }
    {
        push_out(&mut self.owed, self.sink)
    }
}

impl<'a, K: Sink> Air for UnitAir<'a, K> {
    ghost use Rattle.document_texts.specs.Airs.{sink_name, sink_of, mixer_name, mixer_of, owed_of};
    ghost use Rattle.document_texts.specs.Laws.{IsSame, same_none, same_more};

    ghost faults = { λ a. K.faults (sink_of a) };

    ghost grew = { λ a events b. Heard (K.written (sink_of a)) (owed_of a) (mixer_of a) events (K.written (sink_of b)) (owed_of b) (mixer_of b) };

    ghost stopped = { λ f a event b. Ceased f (K.written (sink_of a)) (K.faults (sink_of a)) (owed_of a) (unit_event_text event) (K.written (sink_of b)) (K.faults (sink_of b)) };

    ghost same = { λ a b. IsSame (sink_name a) (mixer_name a) (sink_name b) (mixer_name b) };

    ghost grew_none = { λ a. grew_none (K.written (sink_of a)) (owed_of a) (mixer_of a) };

    ghost grew_more = { λ a b c first second. grew_more (K.written (sink_of a)) (K.written (sink_of b)) (K.written (sink_of c)) (owed_of a) (owed_of b) (owed_of c) (mixer_of a) (mixer_of b) (mixer_of c) first second };

    ghost same_none = { λ a. same_none (sink_name a) (mixer_name a) };

    ghost same_more = { λ a b c first second. same_more (sink_name a) (sink_name b) (sink_name c) (mixer_name a) (mixer_name b) (mixer_name c) first second };

    /// Hears a cell: the radio unit's is written or owed, the distributed unit's added up.
    fn cell(&mut self, c: &AirCell) -> Result<(), AirFault> {
        match c.side {
            Side::Ru => {
                put_cell(c, &mut self.line);
                self.tell()
            }
            Side::Du => self.mix(c),
        }
    }

    /// Hears a measured delay, of which nothing is made.
    fn delay(&mut self, _at: Ticks, _side: Side, _id: u8, _value: i128) -> Result<(), AirFault> {
        Ok(())
    }

    /// Hears a frame, of which nothing is made.
    fn arrival(&mut self, _side: Side, _at: Ticks, _frame: &[u8]) -> Result<(), AirFault> {
        Ok(())
    }

    /// Hears the value of a counter: the line of the radio unit's is written or owed.
    fn count(&mut self, side: Side, counter: Counter, value: u64) -> Result<(), AirFault> {
        match side {
            Side::Ru => {
                put_count(side, counter, value, &mut self.line);
                self.tell()
            }
            Side::Du => Ok(()),
        }
    }
}
