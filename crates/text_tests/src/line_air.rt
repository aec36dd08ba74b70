// An air that writes a line for each event to a sink that it borrows, with a lag of one line, which shows that
// the form of airs with a state closes.
ghost use Rattle.std.specs.Prelude.{◌≡◌, [], ◌∷◌, ◌++◌, false, map, not, if◌then◌else◌, refl, OnOk, OnErr};
ghost use Rattle.std.proofs.Common.{◌∙◌};
ghost use Rattle.std.specs.Io.KnownBytes.{append_known};
ghost use Rattle.fh_base.specs.Told.{WritesFront};
ghost use Rattle.air_source.specs.Causes.{HasAirCause};
ghost use Rattle.air_source.specs.Moves.{Moved, Halted, text_of};
ghost use Rattle.air_source.specs.MovesLaws.{moved_none, moved_more};
ghost use Rattle.air_source.specs.Tellings.{line_next, line_gives, line_ends, bytes_owed};
ghost use Rattle.air_source.specs.declared.events.Event.TheVariants.{Cell};

use crate::built::{calls, level};
use crate::telling::tell_cells;
use air_source::{Air, AirCell, AirFault, Side};
use fault_counters::Counter;
use fh_base::{List, MemorySink, Sink, SinkFault, Ticks, write_all_to};
use std::test::Fail;

/// Keeps the last line, and whether the number of events is odd.
#[derive(Drop)]
pub(crate) struct LineAir<'a, K> {
    sink: &'a mut K,
    odd: bool,
    full: bool,
    line: [u8; 3],
}

impl<'a, K: Sink> LineAir<'a, K> {
    pub fn new(sink: &'a mut K) -> LineAir<'a, K>
        ensures reference { result.sink.ghost_name ≡ sink.entry.ghost_name }
        ensures unchanged { result.sink.now ≡ sink.old }
        ensures begins { result.odd ≡ false }
        ensures owes { bytes_owed result.full result.line ≡ [] }
    {
        LineAir {
            sink,
            odd: false,
            full: false,
            line: [0; 3],
        }
    }

    // Writes the line that is owed, where there is one.
    fn push_out(&mut self) -> Result<(), AirFault>
        ensures reference { self.new.sink.ghost_name ≡ self.old.sink.ghost_name }
        ensures all { OnOk result (K.written self.new.sink.now ≡ append_known (K.written self.old.sink.now) (bytes_owed self.old.full self.old.line)) }
        ensures front { WritesFront (K.written self.old.sink.now) (K.written self.new.sink.now) (bytes_owed self.old.full self.old.line) }
        ensures odd { self.new.odd ≡ self.old.odd }
        ensures cause { HasAirCause (K.faults self.old.sink.now) (K.faults self.new.sink.now) result }
    {
        if self.full {
            put(self.sink, &self.line)
        } else {
            Ok(())
        }
    }

    // Pushes out the line that is owed, and owes that of an event.
    fn tell(&mut self, kind: u8) -> Result<(), AirFault>
        ensures reference { self.new.sink.ghost_name ≡ self.old.sink.ghost_name }
        ensures all { OnOk result (K.written self.new.sink.now ≡ append_known (K.written self.old.sink.now) (bytes_owed self.old.full self.old.line)) }
        ensures owes { OnOk result (bytes_owed self.new.full self.new.line ≡ kind ∷ (if self.old.odd then 1 else 0) ∷ 10 ∷ []) }
        ensures odd { OnOk result (self.new.odd ≡ not self.old.odd) }
        ensures front { OnErr result (WritesFront (K.written self.old.sink.now) (K.written self.new.sink.now) (bytes_owed self.old.full self.old.line)) }
        ensures cause { HasAirCause (K.faults self.old.sink.now) (K.faults self.new.sink.now) result }
    {
        self.push_out()?;
        self.full = true;
        self.line = [kind, digit(self.odd), 10];
        self.odd = !self.odd;
        Ok(())
    }

    /// Writes what is owed and the last byte.
    pub fn finish(&mut self) -> Result<(), AirFault>
        ensures reference { self.new.sink.ghost_name ≡ self.old.sink.ghost_name }
        ensures all { OnOk result (K.written self.new.sink.now ≡ append_known (K.written self.old.sink.now) (bytes_owed self.old.full self.old.line ++ line_ends self.old.odd)) }
        ensures front { WritesFront (K.written self.old.sink.now) (K.written self.new.sink.now) (bytes_owed self.old.full self.old.line ++ line_ends self.old.odd) }
        ensures cause { HasAirCause (K.faults self.old.sink.now) (K.faults self.new.sink.now) result }
    {
        self.push_out()?;
        put(self.sink, &[digit(self.odd)])
    }
}

fn digit(odd: bool) -> u8
    ensures { result ≡ (if odd then 1 else 0) }
{
    if odd { 1 } else { 0 }
}

// Writes all the bytes, and tells a fault as an air does.
fn put<K: Sink>(sink: &mut K, bytes: &[u8]) -> Result<(), AirFault>
    ensures all { OnOk result (K.written sink.new ≡ append_known (K.written sink.old) bytes.now) }
    ensures front { WritesFront (K.written sink.old) (K.written sink.new) bytes.now }
    ensures cause { HasAirCause (K.faults sink.old) (K.faults sink.new) result }
{
    match write_all_to(sink, bytes) {
        Ok(()) => Ok(()),
        Err(SinkFault::Failed) => Err(AirFault::Failed),
        Err(SinkFault::NoMemory) => Err(AirFault::NoMemory),
    }
}

impl<'a, K: Sink> Air for LineAir<'a, K> {
    ghost faults = { λ a. K.faults a.sink.now };

    ghost grew = { λ a events b. Moved line_next line_gives a.odd (bytes_owed a.full a.line) (K.written a.sink.now) events b.odd (bytes_owed b.full b.line) (K.written b.sink.now) };

    ghost stopped = { λ _ a event b. Halted line_gives a.odd (bytes_owed a.full a.line) (K.written a.sink.now) event (K.written b.sink.now) };

    ghost same = { λ a b. b.sink.ghost_name ≡ a.sink.ghost_name };

    ghost grew_none = { λ a. moved_none line_next line_gives a.odd (bytes_owed a.full a.line) (K.written a.sink.now) };

    ghost grew_more = { λ a b c first second. moved_more line_next line_gives a.odd b.odd c.odd (bytes_owed a.full a.line) (bytes_owed b.full b.line) (bytes_owed c.full c.line) (K.written a.sink.now) (K.written b.sink.now) (K.written c.sink.now) first second };

    ghost same_none = { λ a. refl };

    ghost same_more = { λ a b c first second. second ∙ first };

    fn cell(&mut self, _c: &AirCell) -> Result<(), AirFault> {
        self.tell(b'c')
    }

    fn delay(&mut self, _at: Ticks, _side: Side, _id: u8, _value: i128) -> Result<(), AirFault> {
        self.tell(b'd')
    }

    fn arrival(&mut self, _side: Side, _at: Ticks, _frame: &[u8]) -> Result<(), AirFault> {
        self.tell(b'a')
    }

    fn count(&mut self, _side: Side, _counter: Counter, _value: u64) -> Result<(), AirFault> {
        self.tell(b'n')
    }
}

/// Writes the lines of the cells, and the last byte.
fn write_lines<K: Sink>(cells: &[AirCell], out: &mut K) -> Result<(), AirFault>
    ensures all { OnOk result (K.written out.new ≡ append_known (K.written out.old) (text_of line_next line_gives line_ends false (map Cell cells.now))) }
    ensures front { OnErr result (WritesFront (K.written out.old) (K.written out.new) (text_of line_next line_gives line_ends false (map Cell cells.now))) }
    ensures cause { HasAirCause (K.faults out.old) (K.faults out.new) result }
{
    let mut air = LineAir::new(out);
    tell_cells(cells, &mut air)?;
    air.finish()
}

#[test]
fn lines_are_written_one_behind(rt: HostRuntime) -> Result<(), Fail> {
    let alloc = rt.alloc();
    let cells = [level(1), level(2), level(3)];
    let mut sink = MemorySink::new(alloc, 4, List::new(alloc));
    assert_eq!(rt; write_lines(&cells, &mut sink), Ok(()));
    assert_eq!(rt; sink.bytes(), b"c\x00\nc\x01\nc\x00\n\x01".as_slice());
    let mut sink = MemorySink::new(alloc, 2, calls(alloc, &[4])?);
    assert_eq!(rt; write_lines(&cells, &mut sink), Err(AirFault::Failed));
    assert_eq!(rt; sink.bytes(), b"c\x00\nc\x01".as_slice());
    Ok(())
}
