// Sinks that fail in a capture, and where one is shown.
use crate::faults::calls;
use crate::runs::{bytes_of, words_of};
use fh_base::{MemorySink, PlainSink, PlainSource};
use std::test::Fail;
use top_call::{Status, run};

/// A pcap file, highest byte first and in nanoseconds: a command, and 70,000 ns later its data after a tag.
const BIG: &[u8] =
    b"\xa1\xb2<M\x00\x02\x00\x04\x00\x00\x00\x00\x00\x00\x00\x00\x00\x04\x00\x00\x00\x00\x00\x01\x00\x00\x00\x07\x00\x00\x00\x00\x00\x00\x00&\x00\x00\x00&\xff\xff\xff\xff\xff\xff\x02\x00\x00\x00\x00\x01\xae\xfe\x10\x02\x00\x14\x00\x00\x00\x80\x90\x01\x00\x00\x01\x01\x00\x00\x00\x10\x00\x01\xff\xf1\x00\x00\x00\x00\x00\x07\x00\x01\x11p\x00\x00\x00R\x00\x00\x00R\xff\xff\xff\xff\xff\xff\x02\x00\x00\x00\x00\x01\x81\x00\x00d\xae\xfe\x10\x00\x00<\x00\x00\x00\x80\x90\x01\x00\x00\x00\x10\x00\x01\x00\x00\x00\x00\x00\x01\xff\xff\x00\x02\xff\xfe\x00\x03\xff\xfd\x00\x04\xff\xfc\x00\x05\xff\xfb\x00\x06\xff\xfa\x00\x07\xff\xf9\x00\x08\xff\xf8\x00\x09\xff\xf7\x00\x0a\xff\xf6\x00\x0b\xff\xf5";

/// The capture of both of its frames.
const CAPTURE: &[u8] =
    b"FHCAP001\x00\x00\x00\x00\x03n\xe8\x00\x00\x00\x00\x00\x18\x10\x02\x00\x14\x00\x00\x00\x80\x90\x01\x00\x00\x01\x01\x00\x00\x00\x10\x00\x01\xff\xf1\x00\x00\x00\x00\x00\x00\x03uP\xa0\x00\x00\x00\x00@\x10\x00\x00<\x00\x00\x00\x80\x90\x01\x00\x00\x00\x10\x00\x01\x00\x00\x00\x00\x00\x01\xff\xff\x00\x02\xff\xfe\x00\x03\xff\xfd\x00\x04\xff\xfc\x00\x05\xff\xfb\x00\x06\xff\xfa\x00\x07\xff\xf9\x00\x08\xff\xf8\x00\x09\xff\xf7\x00\x0a\xff\xf6\x00\x0b\xff\xf5";

#[test]
fn a_sink_that_fails_keeps_a_front_part_of_a_capture(rt: HostRuntime) -> Result<(), Fail> {
    let alloc = rt.alloc();
    let words = words_of(alloc, &[b"pcap-capture", b"dl", b"9600000"])?;
    let mut call: u64 = 0;
    for bytes in 0..CAPTURE.len() {
        call = call.saturating_add(1);
        let mut source = PlainSource::new(bytes_of(alloc, BIG)?);
        let mut out = MemorySink::new(alloc, 1, calls(alloc, call)?);
        let mut err = PlainSink::new(alloc);
        let status = run(alloc, &words, &mut source, &mut out, &mut err);
        assert_eq!(rt; status, Status::WriteFault, "call {}", call);
        assert_eq!(rt; out.bytes(), &CAPTURE[..bytes], "call {}", call);
    }
    Ok(())
}

/// The same capture, shown in both ways: the lines of its first frame, and the front of their JSON.
#[test]
fn a_sink_that_fails_keeps_a_front_part_of_what_is_shown(rt: HostRuntime) -> Result<(), Fail> {
    let alloc = rt.alloc();
    let cases: [(&[&[u8]], u64, &[u8]); 2] = [
        (&[b"show"], 9, b"frame 1 "),
        (&[b"show", b"--json"], 12, b"[{\"bytes\":2"),
    ];
    for (words, call, front) in cases {
        let words = words_of(alloc, words)?;
        let mut source = PlainSource::new(bytes_of(alloc, CAPTURE)?);
        let mut out = MemorySink::new(alloc, 1, calls(alloc, call)?);
        let mut err = PlainSink::new(alloc);
        let status = run(alloc, &words, &mut source, &mut out, &mut err);
        assert_eq!(rt; status, Status::WriteFault);
        assert_eq!(rt; out.bytes(), front);
    }
    Ok(())
}
