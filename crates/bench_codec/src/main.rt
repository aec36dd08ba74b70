//! What the scripts `bench/bfp`, `bench/frames`, `bench/lines`, `bench/document` and `bench/show` measure. The first word of a call says
//! which; the others are those of its module. `all` makes a small call of each: the gate runs it.
#![tactic(auto)]

mod bfp;
mod blocks;
mod document;
mod frames;
mod lines;
mod show;
mod words;

use fh_base::{Sink, Source, StdSink, StdSource};
use show::{CAPTURE, Form};
use std::alloc::Global;
use std::process::ExitCode;
use std::{env, io};
use words::{Ending, Word};

/// Makes a small call of each word, with what `source` has as the document.
fn run_all<S: Source, K: Sink>(
    rt: &(impl Print + Eprint),
    alloc: Global,
    source: &mut S,
    out: &mut K,
) -> io::Result<Ending> {
    bfp::run(rt, &["pack", "9", "1000"])?;
    frames::run(rt, &["9", "1492", "10"])?;
    lines::run(rt, &["line", "1000", "1000"])?;
    document::run(rt, alloc, source)?;
    show::put(rt, alloc, &CAPTURE, Form::Text, out)?;
    Ok(Ending::Done)
}

/// Makes the call that the words are.
fn run<S: Source, K: Sink>(
    rt: &(impl Print + Eprint),
    alloc: Global,
    words: &[&str],
    source: &mut S,
    out: &mut K,
) -> io::Result<Ending> {
    let [first, rest @ ..] = words else {
        return Ok(Ending::BadWords);
    };
    match Word::of(first) {
        Some(Word::Bfp) => bfp::run(rt, rest),
        Some(Word::Frames) => frames::run(rt, rest),
        Some(Word::Lines) => lines::run(rt, rest),
        Some(Word::Document) => document::run(rt, alloc, source),
        Some(Word::Show) => show::run(rt, alloc, rest, source, out),
        Some(Word::All) => run_all(rt, alloc, source, out),
        None => Ok(Ending::BadWords),
    }
}

fn main(rt: HostRuntime) -> io::Result<ExitCode> {
    let alloc = rt.alloc();
    let texts: Vec<String> = env::args(&rt)?.skip(1).collect(alloc)?;
    let words: Vec<&str> = texts.iter().map(|text| text.as_str()).collect(alloc)?;
    let mut source = StdSource::new(rt.stdin());
    let mut out = StdSink::new(rt.stdout());
    match run(&rt, alloc, words.as_slice(), &mut source, &mut out)? {
        Ending::Done => Ok(ExitCode::SUCCESS),
        Ending::BadWords => {
            eprintln!(rt; "bench_codec: bad words")?;
            Ok(ExitCode::from(2))
        }
    }
}
