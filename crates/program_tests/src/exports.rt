// A sink that fails.
use crate::made::calls;
use fh_base::{MemorySink, PlainSink, SinkFault};
use pcap_export::{Status, Ways, check, put_pcap, write_message};
use std::test::Fail;

/// A command to the radio unit one tick before the nanosecond 9,600,001, and two bytes to the distributed unit at 1.5 s.
const CAPTURE: [u8; 60] = [
    0x46, 0x48, 0x43, 0x41, 0x50, 0x30, 0x30, 0x31, 0x00, 0x00, 0x00, 0x00, 0x03, 0x6e, 0xe8, 0x05,
    0xff, 0x00, 0x00, 0x00, 0x18, 0x10, 0x02, 0x00, 0x14, 0x00, 0x00, 0x00, 0x80, 0x90, 0x01, 0x00,
    0x00, 0x01, 0x01, 0x00, 0x00, 0x00, 0x10, 0x00, 0x01, 0xff, 0xf1, 0x00, 0x00, 0x01, 0x00, 0x00,
    0x02, 0x18, 0x71, 0x1a, 0x00, 0x00, 0x00, 0x00, 0x00, 0x02, 0xab, 0xcd,
];

#[test]
fn a_failing_sink_is_told(rt: HostRuntime) -> Result<(), Fail> {
    let alloc = rt.alloc();
    let mut out = MemorySink::new(alloc, 4, calls(alloc, 2)?);
    if let Err(refusal) = check(&CAPTURE, Ways::Both) {
        panic!(rt; "{refusal:?}");
    }
    let written = put_pcap(&CAPTURE, Ways::Both, &mut out);
    assert_eq!(rt; written, Err(SinkFault::Failed));
    assert_eq!(rt; out.bytes(), [0xa1, 0xb2, 0x3c, 0x4d].as_slice());
    let mut err = PlainSink::new(alloc);
    assert_eq!(rt; write_message(Status::WriteFault, &mut err), Ok(()));
    assert_eq!(rt; err.bytes(), b"capture_pcap: write fault\n".as_slice());
    Ok(())
}
