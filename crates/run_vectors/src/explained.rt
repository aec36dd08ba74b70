// Sinks that fail in an explanation.
use crate::faults::{DOCUMENT, calls};
use crate::runs::{bytes_of, words_of};
use fh_base::{MemorySink, NoMemory, PlainSink, PlainSource};
use std::alloc::Global;
use std::test::Fail;
use top_call::{Status, run};

/// What became of the command and its data.
const EXPLANATION: &[u8] =
    b"explain 1\nwindow t1a_up 234000 345000\nwindow t1a_cp_dl 359000 470000\nwindow t1a_cp_ul 225000 470000\nwindow t2a_up 134000 345000\nwindow t2a_cp_dl 259000 470000\nwindow t2a_cp_ul 125000 470000\nwindow ta3 50000 171000\nwindow ta4 50000 271000\nendpoint 0000 ordinary 30 106 static none\nframe 1 dl 14745600000 24 ok\ncommand 1 0000 place=0 seq=0 sub=0 e=1 ok\nc 1 0000 1 0 0 0 section=1 prb=0 num=1 symbols=1 mask=fff accepted since=70000 until=141000\nframe 2 dl 14899200000 64 ok\ndata 2 0000 place=0 seq=0 sub=0 e=1 bytes=56 whole\nu 2 0000 1 0 0 0 section=1 prb=0 num=1 taken since=45000 until=166000\ndl 15360000000 0000 1 0 0 0 prb=0 num=1 section=1 mask=fff shown from=2\nmargin ru c 0000 ontime=1 since=70000 until=141000\nmargin ru u 0000 ontime=1 since=45000 until=166000\nreason dl 0000 shown 1\ncount ru frames 2\ncount ru messages 2\ncount ru c_accepted 1\ncount ru f_whole 1\ncount ru u_taken 1\ncount ru cells 1\nend\n";

/// The text of their faults.
const FAULTS: &[u8] =
    b"explain 1 faults\nmargin ru c 0000 ontime=1 since=70000 until=141000\nmargin ru u 0000 ontime=1 since=45000 until=166000\nreason dl 0000 shown 1\ncount ru frames 2\ncount ru messages 2\ncount ru c_accepted 1\ncount ru f_whole 1\ncount ru u_taken 1\ncount ru cells 1\nend\n";

/// A run over `DOCUMENT` with a sink of one byte a call, which fails at one call.
fn run_cut(alloc: Global, words: &[&[u8]], call: u64) -> Result<(Status, MemorySink), NoMemory> {
    let words = words_of(alloc, words)?;
    let mut source = PlainSource::new(bytes_of(alloc, DOCUMENT)?);
    let mut out = MemorySink::new(alloc, 1, calls(alloc, call)?);
    let mut err = PlainSink::new(alloc);
    let status = run(alloc, &words, &mut source, &mut out, &mut err);
    Ok((status, out))
}

#[test]
fn a_sink_that_fails_keeps_a_front_part_of_an_explanation(rt: HostRuntime) -> Result<(), Fail> {
    let alloc = rt.alloc();
    let mut call: u64 = 0;
    for bytes in 0..EXPLANATION.len() {
        call = call.saturating_add(1);
        let (status, out) = run_cut(alloc, &[b"explain"], call)?;
        assert_eq!(rt; status, Status::WriteFault, "call {}", call);
        assert_eq!(rt; out.bytes(), &EXPLANATION[..bytes], "call {}", call);
    }
    Ok(())
}

#[test]
fn a_sink_that_fails_keeps_a_front_part_of_the_faults(rt: HostRuntime) -> Result<(), Fail> {
    let alloc = rt.alloc();
    let mut call: u64 = 0;
    for bytes in 0..FAULTS.len() {
        call = call.saturating_add(1);
        let (status, out) = run_cut(alloc, &[b"explain", b"--faults"], call)?;
        assert_eq!(rt; status, Status::WriteFault, "call {}", call);
        assert_eq!(rt; out.bytes(), &FAULTS[..bytes], "call {}", call);
    }
    Ok(())
}
