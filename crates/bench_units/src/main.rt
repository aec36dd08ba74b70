//! What the scripts `bench/radio_unit`, `bench/intake`, `bench/cells` and `bench/uplink` measure. The first word of a call says which; the
//! others are those of its module. `all` makes a small call of each: the gate runs it.
#![tactic(auto)]

mod cells;
mod intake;
mod radio;
mod slots;
mod tally;
mod uplink;
mod words;

use fh_base::{Source, StdSource};
use slots::document_of;
use std::alloc::Global;
use std::process::ExitCode;
use std::{env, io};
use words::{Ending, Word};

/// Makes a small call of each word, with the document that `source` has.
fn run_all<S: Source>(rt: &impl Print, alloc: Global, source: &mut S) -> io::Result<Ending> {
    let document = document_of(alloc, source);
    radio::tell(rt, alloc, document.as_ref(), 25)?;
    intake::tell(rt, alloc, document.as_ref(), &intake::SMALL)?;
    cells::run(rt, alloc, &["add", "1000", "2"])?;
    uplink::run(rt, alloc, &["20", "106", "9", "1492", "0"])?;
    Ok(Ending::Done)
}

/// Makes the call that the words are.
fn run<S: Source>(
    rt: &impl Print,
    alloc: Global,
    words: &[&str],
    source: &mut S,
) -> io::Result<Ending> {
    let [first, rest @ ..] = words else {
        return Ok(Ending::BadWords);
    };
    match Word::of(first) {
        Some(Word::Radio) => radio::run(rt, alloc, rest, source),
        Some(Word::Intake) => intake::run(rt, alloc, rest, source),
        Some(Word::Cells) => cells::run(rt, alloc, rest),
        Some(Word::Uplink) => uplink::run(rt, alloc, rest),
        Some(Word::All) => run_all(rt, alloc, source),
        None => Ok(Ending::BadWords),
    }
}

fn main(rt: HostRuntime) -> io::Result<ExitCode> {
    let alloc = rt.alloc();
    let texts: Vec<String> = env::args(&rt)?.skip(1).collect(alloc)?;
    let words: Vec<&str> = texts.iter().map(|text| text.as_str()).collect(alloc)?;
    let mut source = StdSource::new(rt.stdin());
    match run(&rt, alloc, words.as_slice(), &mut source)? {
        Ending::Done => Ok(ExitCode::SUCCESS),
        Ending::BadWords => {
            eprintln!(rt; "bench_units: bad words")?;
            Ok(ExitCode::from(2))
        }
    }
}
