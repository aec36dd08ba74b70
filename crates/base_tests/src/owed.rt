// Texts at the edge of the room, and sinks that fail in a long one.
use crate::lists::calls;
use fh_base::{MemorySink, OwedBytes, PlainSink, SinkFault};
use std::test::Fail;

#[test]
fn what_fits_is_not_written(rt: HostRuntime) -> Result<(), Fail> {
    let mut sink = PlainSink::new(rt.alloc());
    let mut owed = OwedBytes::new();
    assert_eq!(rt; owed.tell(&[7; 8_192], &mut sink), Ok(()));
    assert_eq!(rt; sink.bytes().len(), 0);
    assert_eq!(rt; owed.tell(b"", &mut sink), Ok(()));
    assert_eq!(rt; sink.bytes().len(), 0);
    assert_eq!(rt; owed.push_out(&mut sink), Ok(()));
    assert_eq!(rt; sink.bytes().len(), 8_192);
    Ok(())
}

#[test]
fn what_does_not_fit_is_written(rt: HostRuntime) -> Result<(), Fail> {
    let mut sink = PlainSink::new(rt.alloc());
    let mut owed = OwedBytes::new();
    assert_eq!(rt; owed.tell(b"ab", &mut sink), Ok(()));
    assert_eq!(rt; owed.tell(&[7; 8_193], &mut sink), Ok(()));
    let bytes = sink.bytes();
    assert_eq!(rt; bytes.len(), 8_195);
    assert!(rt; bytes.starts_with(&[b'a', b'b', 7]));
    // A text that fits alone is owed.
    let mut sink = PlainSink::new(rt.alloc());
    let mut owed = OwedBytes::new();
    assert_eq!(rt; owed.tell(b"a", &mut sink), Ok(()));
    assert_eq!(rt; owed.tell(&[7; 8_192], &mut sink), Ok(()));
    assert_eq!(rt; sink.bytes(), b"a".as_slice());
    Ok(())
}

#[test]
fn a_failing_sink_holds_a_front(rt: HostRuntime) -> Result<(), Fail> {
    let alloc = rt.alloc();
    let mut first = MemorySink::new(alloc, 1, calls(alloc, 2)?);
    let mut owed = OwedBytes::new();
    assert_eq!(rt; owed.tell(b"ab", &mut first), Ok(()));
    assert_eq!(rt; owed.tell(&[7; 8_193], &mut first), Err(SinkFault::Failed));
    assert_eq!(rt; first.bytes(), b"a".as_slice());
    let mut second = MemorySink::new(alloc, 1, calls(alloc, 5)?);
    assert_eq!(rt; owed.tell(&[7; 8_193], &mut second), Err(SinkFault::Failed));
    assert_eq!(rt; second.bytes(), [b'a', b'b', 7, 7].as_slice());
    Ok(())
}
