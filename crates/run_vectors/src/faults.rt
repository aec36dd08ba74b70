// Ends that fail at each call in turn.
use crate::runs::{bytes_of, words_of};
use fh_base::{List, MemorySink, MemorySource, NoMemory, PlainSink, PlainSource};
use std::alloc::Global;
use std::test::Fail;
use top_call::{Status, run};

/// A command and its data, and what the radio unit makes of them.
pub(crate) const DOCUMENT: &[u8] =
    b"fronthaul 1\nendpoint 0000 ordinary 30 106 static none\ninject dl 9600000 1002001400000080900100000101000000100001fff10000\ninject dl 9700000 1000003c000000809001000000100001000000000001ffff0002fffe0003fffd0004fffc0005fffb0006fffa0007fff90008fff80009fff7000afff6000bfff5\n";

const REPORT: &[u8] =
    b"dl 15360000000 0000 1 0 0 0 0 1 fff 0,0 1,-1 2,-2 3,-3 4,-4 5,-5 6,-6 7,-7 8,-8 9,-9 10,-10 11,-11\ncount ru frames 2\ncount ru messages 2\ncount ru c_accepted 1\ncount ru f_whole 1\ncount ru u_taken 1\ncount ru cells 1\nend\n";

/// How many bytes a call of the source gives at most.
const MOST: usize = 64;

/// How many calls read `DOCUMENT`: those that give its bytes, and one that finds its end.
fn calls_to_read() -> u64 {
    (DOCUMENT.len().div_ceil(MOST) as u64).saturating_add(1)
}

pub(crate) fn calls(alloc: Global, number: u64) -> Result<List<u64>, NoMemory> {
    let mut list = List::new(alloc);
    list.push(number)?;
    Ok(list)
}

// One byte a call: the call after those of so many bytes fails.
#[test]
fn a_sink_that_fails_keeps_a_front_part(rt: HostRuntime) -> Result<(), Fail> {
    let alloc = rt.alloc();
    let words = words_of(alloc, &[b"replay"])?;
    let mut call: u64 = 0;
    for bytes in 0..REPORT.len() {
        call = call.saturating_add(1);
        let mut source = PlainSource::new(bytes_of(alloc, DOCUMENT)?);
        let mut out = MemorySink::new(alloc, 1, calls(alloc, call)?);
        let mut err = PlainSink::new(alloc);
        let status = run(alloc, &words, &mut source, &mut out, &mut err);
        assert_eq!(rt;
            (status, status.code()),
            (Status::WriteFault, 6),
            "call {}",
            call
        );
        assert_eq!(rt; out.bytes(), &REPORT[..bytes], "call {}", call);
        assert_eq!(rt; err.bytes(), b"fronthaul: write fault\n".as_slice());
    }
    Ok(())
}

// A verdict follows a complete text: a sink that fails in it is a fault of writing, whatever the verdict.
#[test]
fn a_verdict_needs_the_whole_text(rt: HostRuntime) -> Result<(), Fail> {
    let alloc = rt.alloc();
    let words = words_of(alloc, &[b"fit"])?;
    let document = b"fronthaul 1\nt12 0 300000\n";
    let text =
        b"breach up-min -234000 300000\nbreach cp-ul-min -225000 300000\nbreach hold-dl -345000 0 -234000 300000\n";
    let mut call: u64 = 0;
    for bytes in 0..text.len() {
        call = call.saturating_add(1);
        let mut source = PlainSource::new(bytes_of(alloc, document)?);
        let mut out = MemorySink::new(alloc, 1, calls(alloc, call)?);
        let mut err = PlainSink::new(alloc);
        let status = run(alloc, &words, &mut source, &mut out, &mut err);
        assert_eq!(rt; status, Status::WriteFault, "call {}", call);
        assert_eq!(rt; out.bytes(), &text[..bytes], "call {}", call);
    }
    Ok(())
}

// Each call that reads the document fails, and the one that finds its end. The line on standard error ends where that fails.
#[test]
fn a_source_that_fails_gives_nothing(rt: HostRuntime) -> Result<(), Fail> {
    let alloc = rt.alloc();
    let words = words_of(alloc, &[b"replay"])?;
    for call in 1..calls_to_read().saturating_add(1) {
        let mut source = MemorySource::new(bytes_of(alloc, DOCUMENT)?, MOST, calls(alloc, call)?);
        let mut out = PlainSink::new(alloc);
        let mut err = MemorySink::new(alloc, 7, calls(alloc, 3)?);
        let status = run(alloc, &words, &mut source, &mut out, &mut err);
        assert_eq!(rt;
            (status, status.code()),
            (Status::ReadFault, 5),
            "call {}",
            call
        );
        assert_eq!(rt; out.bytes(), b"".as_slice());
        assert_eq!(rt; err.bytes(), b"fronthaul: rea".as_slice());
    }
    Ok(())
}

// The next call is not made, so those are all.
#[test]
fn a_source_that_would_fail_later_is_read_whole(rt: HostRuntime) -> Result<(), Fail> {
    let alloc = rt.alloc();
    let words = words_of(alloc, &[b"replay"])?;
    let next = calls_to_read().saturating_add(1);
    let mut source = MemorySource::new(bytes_of(alloc, DOCUMENT)?, MOST, calls(alloc, next)?);
    let mut out = PlainSink::new(alloc);
    let mut err = PlainSink::new(alloc);
    let status = run(alloc, &words, &mut source, &mut out, &mut err);
    assert_eq!(rt; status, Status::Done);
    assert_eq!(rt; out.bytes(), REPORT);
    assert_eq!(rt; err.bytes(), b"".as_slice());
    Ok(())
}
