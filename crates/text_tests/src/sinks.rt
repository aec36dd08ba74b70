// What is owed to a sink, and a sink that fails.
use crate::built::calls;
use air_source::{AirFault, push_out, tell};
use fh_base::{MemorySink, OwedBytes, PlainSink};
use std::test::Fail;

#[test]
fn what_is_told_is_written_at_last(rt: HostRuntime) -> Result<(), Fail> {
    let mut sink = PlainSink::new(rt.alloc());
    let mut owed = OwedBytes::new();
    assert_eq!(rt; tell(&mut owed, b"ab", &mut sink), Ok(()));
    assert_eq!(rt; tell(&mut owed, b"c", &mut sink), Ok(()));
    assert_eq!(rt; sink.bytes().len(), 0);
    assert_eq!(rt; push_out(&mut owed, &mut sink), Ok(()));
    assert_eq!(rt; sink.bytes(), b"abc".as_slice());
    Ok(())
}

#[test]
fn a_failing_sink_is_a_failed_air(rt: HostRuntime) -> Result<(), Fail> {
    let mut sink = MemorySink::new(rt.alloc(), 1, calls(rt.alloc(), &[2])?);
    let mut owed = OwedBytes::new();
    assert_eq!(rt; tell(&mut owed, b"ab", &mut sink), Ok(()));
    assert_eq!(rt; push_out(&mut owed, &mut sink), Err(AirFault::Failed));
    assert_eq!(rt; sink.bytes(), b"a".as_slice());
    Ok(())
}
