// Captures: exact bytes, and fronts of them.
ghost use Rattle.std.specs.Prelude.{◌≡◌, [], ◌∷◌, ◌<◌, ◌^◌, length, OnOk};
ghost use Rattle.std.specs.Io.KnownBytes.{append_known};
ghost use Rattle.fh_base.specs.Told.{WritesFront};
ghost use Rattle.air_source.specs.Causes.{HasAirCause};
ghost use Rattle.air_source.specs.declared.events.Event.TheVariants.{Arrival};
ghost use Rattle.report_airs.specs.Capture.{whole_capture};

use crate::built::{calls, missing};
use air_source::{Air, AirFault, Side};
use fault_counters::Counter;
use fh_base::{MemorySink, PlainSink, Sink, Ticks};
use report_airs::CaptureAir;
use std::test::Fail;

/// Writes the capture of one frame that arrived, which shows how a caller makes, tells and finishes the air.
fn write_arrival<K: Sink>(side: Side, at: Ticks, frame: &[u8], out: &mut K) -> Result<(), AirFault>
    requires { length frame.now < 2 ^ 32 }
    ensures all { OnOk result (K.written out.new ≡ append_known (K.written out.old) (whole_capture (Arrival side at frame.now ∷ []))) }
    ensures front { WritesFront (K.written out.old) (K.written out.new) (whole_capture (Arrival side at frame.now ∷ [])) }
    ensures cause { HasAirCause (K.faults out.old) (K.faults out.new) result }
{
    let mut air = CaptureAir::new(out);
    air.arrival(side, at, frame)?;
    air.finish()
}

/// Three bytes to the distributed unit at 14,745,600,000 ticks, and none to the radio unit at -1.
const SOME: [u8; 37] = [
    0x46, 0x48, 0x43, 0x41, 0x50, 0x30, 0x30, 0x31, 0x01, 0x00, 0x00, 0x00, 0x03, 0x6e, 0xe8, 0x00,
    0x00, 0x00, 0x00, 0x00, 0x03, 0x0a, 0x0b, 0x0c, 0x00, 0xff, 0xff, 0xff, 0xff, 0xff, 0xff, 0xff,
    0xff, 0x00, 0x00, 0x00, 0x00,
];

/// Tells a cell, two arrivals, a delay and a counter.
fn tell_some<A: Air>(air: &mut A) -> Result<(), AirFault> {
    air.cell(&missing(0))?;
    air.arrival(Side::Du, Ticks(14_745_600_000), &[10, 11, 12])?;
    air.delay(Ticks(-5), Side::Ru, 255, -65_536)?;
    air.arrival(Side::Ru, Ticks(-1), &[])?;
    air.count(Side::Ru, Counter::Frames, 2)
}

#[test]
fn arrivals_are_records(rt: HostRuntime) -> Result<(), Fail> {
    let mut sink = PlainSink::new(rt.alloc());
    let mut air = CaptureAir::new(&mut sink);
    assert_eq!(rt; tell_some(&mut air), Ok(()));
    assert_eq!(rt; air.finish(), Ok(()));
    assert_eq!(rt; sink.bytes(), SOME.as_slice());
    Ok(())
}

#[test]
fn nothing_told_is_the_magic(rt: HostRuntime) -> Result<(), Fail> {
    let mut sink = PlainSink::new(rt.alloc());
    let mut air = CaptureAir::new(&mut sink);
    assert_eq!(rt; air.finish(), Ok(()));
    assert_eq!(rt; air.finish(), Ok(()));
    assert_eq!(rt; sink.bytes(), b"FHCAP001".as_slice());
    Ok(())
}

#[test]
fn a_long_frame_is_written_at_once(rt: HostRuntime) -> Result<(), Fail> {
    let mut sink = PlainSink::new(rt.alloc());
    assert_eq!(rt;
        write_arrival(Side::Ru, Ticks(0), &[7; 9_216], &mut sink),
        Ok(())
    );
    let bytes = sink.bytes();
    assert_eq!(rt; bytes.len(), 9_237);
    assert_eq!(rt;
        &bytes[8..22],
        [0, 0, 0, 0, 0, 0, 0, 0, 0, 0, 0, 0x24, 0, 7].as_slice()
    );
    Ok(())
}

#[test]
fn many_frames_stand_in_order(rt: HostRuntime) -> Result<(), Fail> {
    let mut sink = PlainSink::new(rt.alloc());
    let mut air = CaptureAir::new(&mut sink);
    for k in 0..300 {
        assert_eq!(rt; air.arrival(Side::Ru, Ticks(k), &[9; 40]), Ok(()));
    }
    assert_eq!(rt; air.finish(), Ok(()));
    let bytes = sink.bytes();
    assert_eq!(rt; bytes.len(), 15_908);
    for k in 0..300_usize {
        assert_eq!(rt; bytes[8 + 53 * k + 8], (k % 256) as u8);
        assert_eq!(rt; bytes[8 + 53 * k + 13], 9);
    }
    Ok(())
}

#[test]
fn a_failing_sink_holds_a_front(rt: HostRuntime) -> Result<(), Fail> {
    let alloc = rt.alloc();
    for call in 1..38_usize {
        let mut sink = MemorySink::new(alloc, 1, calls(alloc, &[call as u64])?);
        let mut air = CaptureAir::new(&mut sink);
        assert_eq!(rt; tell_some(&mut air), Ok(()));
        assert_eq!(rt; air.finish(), Err(AirFault::Failed));
        assert_eq!(rt; sink.bytes(), &SOME[..call - 1]);
    }
    Ok(())
}

#[test]
fn a_sink_that_fails_in_a_long_frame_holds_a_front(rt: HostRuntime) -> Result<(), Fail> {
    let mut sink = MemorySink::new(rt.alloc(), 1, calls(rt.alloc(), &[23])?);
    assert_eq!(rt;
        write_arrival(Side::Ru, Ticks(0), &[7; 9_216], &mut sink),
        Err(AirFault::Failed)
    );
    assert_eq!(rt; sink.bytes().len(), 22);
    Ok(())
}
