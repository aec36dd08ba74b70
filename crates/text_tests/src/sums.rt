// Summaries: exact texts, and fronts of them.
ghost use Rattle.std.specs.Prelude.{◌≡◌, [], OnOk, map};
ghost use Rattle.std.specs.Io.KnownBytes.{append_known};
ghost use Rattle.fh_base.specs.Told.{WritesFront};
ghost use Rattle.air_source.specs.Causes.{HasAirCause};
ghost use Rattle.air_source.specs.declared.events.Event.TheVariants.{Cell};
ghost use Rattle.report_airs.specs.SumAirs.{sink_name, sink_of, owed_of, sums_of};
ghost use Rattle.report_airs.specs.States.{sum_start};
ghost use Rattle.report_airs.specs.Summary.{whole_summary};

use crate::built::{calls, missing, ramp};
use crate::telling::tell_cells;
use air_source::{Air, AirCell, AirFault, Side};
use fault_counters::Counter;
use fh_base::{MemorySink, PlainSink, Sink, Slot, Ticks};
use report_airs::{SumAir, Sums};
use std::test::Fail;

/// Tells a fresh air the cells, and finishes it.
fn tell_all<K: Sink>(cells: &[AirCell], air: &mut SumAir<'_, K>) -> Result<(), AirFault>
    requires nothing { owed_of air.old ≡ [] }
    requires start { sums_of air.old ≡ sum_start }
    ensures reference { sink_name air.new ≡ sink_name air.old }
    ensures all { OnOk result (K.written (sink_of air.new) ≡ append_known (K.written (sink_of air.old)) (whole_summary (map Cell cells.now))) }
    ensures front { WritesFront (K.written (sink_of air.old)) (K.written (sink_of air.new)) (whole_summary (map Cell cells.now)) }
    ensures cause { HasAirCause (K.faults (sink_of air.old)) (K.faults (sink_of air.new)) result }
{
    tell_cells(cells, air)?;
    air.finish()
}

/// Writes the summary of some cells, which shows how a caller makes, tells, finishes and lets go the air.
fn write_cells<K: Sink>(sums: Sums, cells: &[AirCell], out: &mut K) -> Result<(), AirFault>
    requires { sums ≡ sum_start }
    ensures all { OnOk result (K.written out.new ≡ append_known (K.written out.old) (whole_summary (map Cell cells.now))) }
    ensures front { WritesFront (K.written out.old) (K.written out.new) (whole_summary (map Cell cells.now)) }
    ensures cause { HasAirCause (K.faults out.old) (K.faults out.new) result }
{
    let mut air = SumAir::over(sums, out);
    let told = tell_all(cells, &mut air);
    let _sink = air.into_sink();
    told
}

/// A cell with the samples (0, 0) to (11, -11).
fn shown(prb: u16) -> AirCell {
    AirCell {
        block: Some(ramp()),
        ..missing(prb)
    }
}

/// Tells a run of two cells around an arrival, one of another unit, four results and two counters.
fn tell_some<A: Air>(air: &mut A) -> Result<(), AirFault> {
    air.cell(&shown(3))?;
    air.arrival(Side::Ru, Ticks(0), &[1, 2])?;
    air.delay(Ticks(1), Side::Ru, 7, -5)?;
    air.cell(&missing(7))?;
    air.delay(Ticks(2), Side::Du, 7, 3_276_800_000)?;
    air.delay(Ticks(3), Side::Ru, 8, 9)?;
    air.delay(Ticks(4), Side::Ru, 9, 7)?;
    air.cell(&AirCell {
        side: Side::Du,
        mask: 0x801,
        ..shown(8)
    })?;
    air.count(Side::Ru, Counter::Frames, 2)?;
    air.count(Side::Du, Counter::UnknownEndpoint, 0)
}

const SOME: &[u8] = b"sum dl 15360000000 0000 1 0 0 0 12 66 -66 1
sum ul 15360000000 0000 1 0 0 0 2 11 -11 0
delays du 1 3276800000 3276800000
delays ru 3 -5 9
count ru frames 2
count du unknown_endpoint 0
end
";

#[test]
fn each_kind_of_event_has_its_place(rt: HostRuntime) -> Result<(), Fail> {
    let alloc = rt.alloc();
    let mut sink = PlainSink::new(alloc);
    let mut air = SumAir::new(alloc, &mut sink)?;
    assert_eq!(rt; tell_some(&mut air), Ok(()));
    assert_eq!(rt; air.finish(), Ok(()));
    let sink = air.into_sink();
    assert_eq!(rt; sink.bytes(), SOME);
    Ok(())
}

/// No cells, one that is still open at the end, and missing ones alone.
#[test]
fn cells_are_runs(rt: HostRuntime) -> Result<(), Fail> {
    let cases: [(&[AirCell], &[u8]); 3] = [
        (&[], b"end\n"),
        (
            &[shown(0)],
            b"sum dl 15360000000 0000 1 0 0 0 12 66 -66 0\nend\n",
        ),
        (
            &[missing(0), missing(1), missing(5)],
            b"sum dl 15360000000 0000 1 0 0 0 0 0 0 3\nend\n",
        ),
    ];
    for (cells, text) in cases {
        let mut sink = PlainSink::new(rt.alloc());
        let sums = Sums::make(rt.alloc())?;
        assert_eq!(rt; write_cells(sums, cells, &mut sink), Ok(()));
        assert_eq!(rt; sink.bytes(), text);
    }
    Ok(())
}

#[test]
fn a_run_ends_at_each_difference(rt: HostRuntime) -> Result<(), Fail> {
    let alloc = rt.alloc();
    let first = missing(4);
    let next = missing(5);
    let others = [
        AirCell {
            side: Side::Du,
            ..next
        },
        AirCell {
            at: Ticks(15_360_000_001),
            ..next
        },
        AirCell { id: 1, ..next },
        AirCell {
            slot: Slot {
                frame: -1,
                ..next.slot
            },
            ..next
        },
        AirCell {
            slot: Slot {
                subframe: 9,
                ..next.slot
            },
            ..next
        },
        AirCell {
            slot: Slot {
                slot: 3,
                ..next.slot
            },
            ..next
        },
        AirCell { symbol: 13, ..next },
        first,
        missing(3),
    ];
    let lines: [&[u8]; 9] = [
        b"sum ul 15360000000 0000 1 0 0 0 0 0 0 1\n",
        b"sum dl 15360000001 0000 1 0 0 0 0 0 0 1\n",
        b"sum dl 15360000000 0001 1 0 0 0 0 0 0 1\n",
        b"sum dl 15360000000 0000 -1 0 0 0 0 0 0 1\n",
        b"sum dl 15360000000 0000 1 9 0 0 0 0 0 1\n",
        b"sum dl 15360000000 0000 1 0 3 0 0 0 0 1\n",
        b"sum dl 15360000000 0000 1 0 0 13 0 0 0 1\n",
        b"sum dl 15360000000 0000 1 0 0 0 0 0 0 1\n",
        b"sum dl 15360000000 0000 1 0 0 0 0 0 0 1\n",
    ];
    for k in 0..9 {
        let mut sink = PlainSink::new(alloc);
        let sums = Sums::make(alloc)?;
        assert_eq!(rt; write_cells(sums, &[first, others[k]], &mut sink), Ok(()));
        let bytes = sink.bytes();
        assert!(rt; bytes.starts_with(b"sum dl 15360000000 0000 1 0 0 0 0 0 0 1\n"));
        assert!(rt; bytes.len() > 44);
        assert_eq!(rt; bytes.len() - 44, lines[k].len());
        assert!(rt; bytes[40..].starts_with(lines[k]));
    }
    Ok(())
}

#[test]
fn the_last_sixteen_results_count(rt: HostRuntime) -> Result<(), Fail> {
    let alloc = rt.alloc();
    let mut sink = PlainSink::new(alloc);
    let mut air = SumAir::new(alloc, &mut sink)?;
    assert_eq!(rt; air.delay(Ticks(0), Side::Du, 0, -1_000), Ok(()));
    for k in 1..17_u8 {
        assert_eq!(rt;
            air.delay(Ticks(0), Side::Du, 0, 10 - i128::from(k)),
            Ok(())
        );
    }
    assert_eq!(rt; air.finish(), Ok(()));
    let sink = air.into_sink();
    assert_eq!(rt; sink.bytes(), b"delays du 16 -6 9\nend\n".as_slice());
    Ok(())
}

#[test]
fn a_failing_sink_holds_a_front(rt: HostRuntime) -> Result<(), Fail> {
    let alloc = rt.alloc();
    for call in 1..SOME.len() {
        let mut sink = MemorySink::new(alloc, 1, calls(alloc, &[call as u64])?);
        let mut air = SumAir::new(alloc, &mut sink)?;
        assert_eq!(rt; tell_some(&mut air), Ok(()));
        assert_eq!(rt; air.finish(), Err(AirFault::Failed));
        let sink = air.into_sink();
        assert_eq!(rt; sink.bytes(), &SOME[..call - 1]);
    }
    Ok(())
}
