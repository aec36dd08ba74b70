//! The program: it hands its words and the standard streams to the top call, and ends with the status that results from it.
#![tactic(auto)]

use fh_base::{StdSink, StdSource};
use program_words::collect_words;
use std::process::ExitCode;
use top_call::{Status, run, write_message};

fn main(rt: HostRuntime) -> ExitCode {
    let alloc = rt.alloc();
    let mut source = StdSource::new(rt.stdin());
    let mut out = StdSink::new(rt.stdout());
    let mut err = StdSink::new(rt.stderr());
    let Ok(words) = collect_words(&rt, alloc) else {
        let _ = write_message(Status::NoMemory, &mut err);
        return ExitCode::from(Status::NoMemory.code());
    };
    let status = run(alloc, &words, &mut source, &mut out, &mut err);
    ExitCode::from(status.code())
}
