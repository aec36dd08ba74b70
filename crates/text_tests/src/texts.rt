// Reports and their count lines: exact texts, and fronts of them.
ghost use Rattle.std.specs.Prelude.{◌≡◌, OnOk, map};
ghost use Rattle.std.specs.Io.KnownBytes.{append_known};
ghost use Rattle.fh_base.specs.Told.{WritesFront};
ghost use Rattle.air_source.specs.Causes.{HasAirCause};
ghost use Rattle.air_source.specs.declared.events.Event.TheVariants.{Cell};
ghost use Rattle.report_airs.specs.Text.{whole_text};

use crate::built::{calls, level, missing};
use crate::telling::tell_cells;
use air_source::{Air, AirCell, AirFault, Side};
use fault_counters::Counter;
use fh_base::{MemorySink, PlainSink, Sink, Ticks};
use report_airs::{CountAir, TextAir};
use std::test::Fail;

/// Writes the report of some cells, which shows how a caller makes, tells and finishes the air.
fn write_cells<K: Sink>(cells: &[AirCell], out: &mut K) -> Result<(), AirFault>
    ensures all { OnOk result (K.written out.new ≡ append_known (K.written out.old) (whole_text (map Cell cells.now))) }
    ensures front { WritesFront (K.written out.old) (K.written out.new) (whole_text (map Cell cells.now)) }
    ensures cause { HasAirCause (K.faults out.old) (K.faults out.new) result }
{
    let mut air = TextAir::new(out);
    tell_cells(cells, &mut air)?;
    air.finish()
}

/// Tells a cell, an arrival, a delay and two counters.
fn tell_some<A: Air>(air: &mut A) -> Result<(), AirFault> {
    air.cell(&level(7))?;
    air.arrival(Side::Ru, Ticks(-7), &[1, 2, 3])?;
    air.delay(Ticks(1_689_600_000), Side::Du, 7, 3_276_800_000)?;
    air.delay(Ticks(-5), Side::Ru, 255, -65_536)?;
    air.count(Side::Ru, Counter::Frames, 2)?;
    air.count(Side::Du, Counter::UnknownEndpoint, 0)
}

const SOME: &[u8] =
    b"dl 15360000000 0000 1 0 0 0 7 1 fff 3,-3 3,-3 3,-3 3,-3 3,-3 3,-3 3,-3 3,-3 3,-3 3,-3 3,-3 3,-3
delay 1689600000 du 7 3276800000
delay -5 ru 255 -65536
count ru frames 2
count du unknown_endpoint 0
end
";

const COUNTS: &[u8] = b"count ru frames 2\ncount du unknown_endpoint 0\nend\n";

#[test]
fn each_kind_of_event_has_its_line(rt: HostRuntime) -> Result<(), Fail> {
    let mut sink = PlainSink::new(rt.alloc());
    let mut air = TextAir::new(&mut sink);
    assert_eq!(rt; tell_some(&mut air), Ok(()));
    assert_eq!(rt; air.finish(), Ok(()));
    assert_eq!(rt; sink.bytes(), SOME);
    Ok(())
}

/// Of the same events the count lines alone.
#[test]
fn counters_alone_have_count_lines(rt: HostRuntime) -> Result<(), Fail> {
    let mut sink = PlainSink::new(rt.alloc());
    let mut air = CountAir::new(&mut sink);
    assert_eq!(rt; tell_some(&mut air), Ok(()));
    assert_eq!(rt; air.finish(), Ok(()));
    assert_eq!(rt; sink.bytes(), COUNTS);
    Ok(())
}

#[test]
fn a_failing_sink_holds_a_front_of_the_count_lines(rt: HostRuntime) -> Result<(), Fail> {
    let mut sink = MemorySink::new(rt.alloc(), 1, calls(rt.alloc(), &[9])?);
    let mut air = CountAir::new(&mut sink);
    assert_eq!(rt; tell_some(&mut air), Ok(()));
    assert_eq!(rt; air.finish(), Err(AirFault::Failed));
    assert_eq!(rt; sink.bytes(), &COUNTS[..8]);
    Ok(())
}

/// No cells, and so many that they fill the buffer many times.
#[test]
fn cells_stand_in_order_before_the_last_line(rt: HostRuntime) -> Result<(), Fail> {
    let cells = [missing(4); 300];
    let line = b"dl 15360000000 0000 1 0 0 0 4 1 fff missing\n".as_slice();
    for count in [0, 300] {
        let mut sink = PlainSink::new(rt.alloc());
        assert_eq!(rt; write_cells(&cells[..count], &mut sink), Ok(()));
        let bytes = sink.bytes();
        assert_eq!(rt; bytes.len(), count * 44 + 4);
        for k in 0..count {
            assert_eq!(rt; &bytes[44 * k..44 * k + 44], line);
        }
        assert!(rt; bytes.ends_with(b"end\n"));
    }
    Ok(())
}

#[test]
fn what_does_not_fit_is_written_before(rt: HostRuntime) -> Result<(), Fail> {
    let mut sink = PlainSink::new(rt.alloc());
    let mut air = TextAir::new(&mut sink);
    // 186 lines of 44 bytes are 8,184 bytes, so the next line does not fit
    assert_eq!(rt; tell_cells(&[missing(4); 187], &mut air), Ok(()));
    assert_eq!(rt; sink.bytes().len(), 8_184);
    Ok(())
}

#[test]
fn a_failing_sink_holds_a_front(rt: HostRuntime) -> Result<(), Fail> {
    let mut sink = MemorySink::new(rt.alloc(), 1, calls(rt.alloc(), &[9])?);
    let mut air = TextAir::new(&mut sink);
    assert_eq!(rt; tell_some(&mut air), Ok(()));
    assert_eq!(rt; air.finish(), Err(AirFault::Failed));
    assert_eq!(rt; sink.bytes(), &SOME[..8]);
    Ok(())
}

#[test]
fn a_sink_that_fails_inside_holds_a_front(rt: HostRuntime) -> Result<(), Fail> {
    let mut sink = MemorySink::new(rt.alloc(), 1, calls(rt.alloc(), &[50])?);
    assert_eq!(rt;
        write_cells(&[missing(4); 187], &mut sink),
        Err(AirFault::Failed)
    );
    assert_eq!(rt;
        sink.bytes(),
        b"dl 15360000000 0000 1 0 0 0 4 1 fff missing\ndl 15".as_slice()
    );
    Ok(())
}
