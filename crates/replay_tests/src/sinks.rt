// Reports, summaries and captures in sinks that fail, and after what is there.
use fh_base::{List, MemorySink, PlainSink};
use fh_document::read;
use fronthaul_replay::{
    TextFault, capture_document, check_plan, report_document, summarize_document,
};
use std::test::Fail;

/// A command and its data, both on time.
const ORDINARY: &[u8] =
    b"fronthaul 1\nendpoint 0000 ordinary 30 106 static none\ninject dl 9600000 1002001400000080900100000101000000100001fff10000\ninject dl 9700000 1000003c000000809001000000100001000000000001ffff0002fffe0003fffd0004fffc0005fffb0006fffa0007fff90008fff80009fff7000afff6000bfff5\n";

const REPORT: &[u8] =
    b"dl 15360000000 0000 1 0 0 0 0 1 fff 0,0 1,-1 2,-2 3,-3 4,-4 5,-5 6,-6 7,-7 8,-8 9,-9 10,-10 11,-11\ncount ru frames 2\ncount ru messages 2\ncount ru c_accepted 1\ncount ru f_whole 1\ncount ru u_taken 1\ncount ru cells 1\nend\n";

const SUMMARY: &[u8] = b"sum dl 15360000000 0000 1 0 0 0 12 66 -66 0
count ru frames 2
count ru messages 2
count ru c_accepted 1
count ru f_whole 1
count ru u_taken 1
count ru cells 1
end
";

/// The magic, the command at 14,745,600,000 ticks and the data at 14,899,200,000 ticks, both to the radio unit.
const CAPTURE: [u8; 122] = [
    0x46, 0x48, 0x43, 0x41, 0x50, 0x30, 0x30, 0x31, 0x00, 0x00, 0x00, 0x00, 0x03, 0x6e, 0xe8, 0x00,
    0x00, 0x00, 0x00, 0x00, 0x18, 0x10, 0x02, 0x00, 0x14, 0x00, 0x00, 0x00, 0x80, 0x90, 0x01, 0x00,
    0x00, 0x01, 0x01, 0x00, 0x00, 0x00, 0x10, 0x00, 0x01, 0xff, 0xf1, 0x00, 0x00, 0x00, 0x00, 0x00,
    0x00, 0x03, 0x78, 0x0f, 0xc0, 0x00, 0x00, 0x00, 0x00, 0x40, 0x10, 0x00, 0x00, 0x3c, 0x00, 0x00,
    0x00, 0x80, 0x90, 0x01, 0x00, 0x00, 0x00, 0x10, 0x00, 0x01, 0x00, 0x00, 0x00, 0x00, 0x00, 0x01,
    0xff, 0xff, 0x00, 0x02, 0xff, 0xfe, 0x00, 0x03, 0xff, 0xfd, 0x00, 0x04, 0xff, 0xfc, 0x00, 0x05,
    0xff, 0xfb, 0x00, 0x06, 0xff, 0xfa, 0x00, 0x07, 0xff, 0xf9, 0x00, 0x08, 0xff, 0xf8, 0x00, 0x09,
    0xff, 0xf7, 0x00, 0x0a, 0xff, 0xf6, 0x00, 0x0b, 0xff, 0xf5,
];

#[test]
fn a_report_stands_behind_what_was_there(rt: HostRuntime) -> Result<(), Fail> {
    let alloc = rt.alloc();
    let document = read(alloc, b"fronthaul 1\n")?;
    let mut out = PlainSink::new(alloc);
    assert_eq!(rt;
        report_document(alloc, &document, check_plan(alloc, &document)?, &mut out),
        Ok(())
    );
    assert_eq!(rt;
        report_document(alloc, &document, check_plan(alloc, &document)?, &mut out),
        Ok(())
    );
    assert_eq!(rt; out.bytes(), b"end\nend\n".as_slice());
    Ok(())
}

// One byte a call: the call after those of so many bytes fails.
#[test]
fn a_sink_that_fails_keeps_a_front_part_of_a_report(rt: HostRuntime) -> Result<(), Fail> {
    let alloc = rt.alloc();
    let document = read(alloc, ORDINARY)?;
    let mut call: u64 = 0;
    for bytes in 0..REPORT.len() {
        call = call.saturating_add(1);
        let mut fails = List::new(alloc);
        fails.push(call)?;
        let mut out = MemorySink::new(alloc, 1, fails);
        let answer = report_document(alloc, &document, check_plan(alloc, &document)?, &mut out);
        assert_eq!(rt; answer, Err(TextFault::WriteFault), "call {}", call);
        assert_eq!(rt; out.bytes(), &REPORT[..bytes], "call {}", call);
    }
    Ok(())
}

#[test]
fn a_sink_that_would_fail_later_has_it_all(rt: HostRuntime) -> Result<(), Fail> {
    let alloc = rt.alloc();
    let document = read(alloc, ORDINARY)?;
    let mut fails = List::new(alloc);
    fails.push(REPORT.len() as u64 + 1)?;
    let mut out = MemorySink::new(alloc, 1, fails);
    assert_eq!(rt;
        report_document(alloc, &document, check_plan(alloc, &document)?, &mut out),
        Ok(())
    );
    assert_eq!(rt; out.bytes(), REPORT);
    Ok(())
}

// One byte a call: the call after those of so many bytes fails.
#[test]
fn a_sink_that_fails_keeps_a_front_part_of_a_summary(rt: HostRuntime) -> Result<(), Fail> {
    let alloc = rt.alloc();
    let document = read(alloc, ORDINARY)?;
    let mut call: u64 = 0;
    for bytes in 0..SUMMARY.len() {
        call = call.saturating_add(1);
        let mut fails = List::new(alloc);
        fails.push(call)?;
        let mut out = MemorySink::new(alloc, 1, fails);
        let answer = summarize_document(alloc, &document, check_plan(alloc, &document)?, &mut out);
        assert_eq!(rt; answer, Err(TextFault::WriteFault), "call {}", call);
        assert_eq!(rt; out.bytes(), &SUMMARY[..bytes], "call {}", call);
    }
    Ok(())
}

#[test]
fn a_sink_that_fails_keeps_a_front_part_of_a_capture(rt: HostRuntime) -> Result<(), Fail> {
    let alloc = rt.alloc();
    let document = read(alloc, ORDINARY)?;
    let mut call: u64 = 0;
    for bytes in 0..CAPTURE.len() {
        call = call.saturating_add(1);
        let mut fails = List::new(alloc);
        fails.push(call)?;
        let mut out = MemorySink::new(alloc, 1, fails);
        let answer = capture_document(alloc, &document, check_plan(alloc, &document)?, &mut out);
        assert_eq!(rt; answer, Err(TextFault::WriteFault), "call {}", call);
        assert_eq!(rt; out.bytes(), &CAPTURE[..bytes], "call {}", call);
    }
    Ok(())
}
