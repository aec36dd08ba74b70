//! What the scripts `bench/plan` and `bench/schedule` measure. The first word of a call says which; the others are those of its module.
//! `all` makes a small call of each: the gate runs it.
#![tactic(auto)]

mod configs;
mod plan;
mod schedule;
mod words;

use std::alloc::Global;
use std::process::ExitCode;
use std::{env, io};
use words::{Ending, Word};

/// Makes a small call of each word.
fn run_all(rt: &impl Print, alloc: Global) -> io::Result<Ending> {
    plan::run(rt, alloc, &["elements", "257"])?;
    schedule::run(rt, alloc, &["frames", "usual", "8", "106", "1492"])?;
    Ok(Ending::Done)
}

/// Makes the call that the words are.
fn run(rt: &impl Print, alloc: Global, words: &[&str]) -> io::Result<Ending> {
    let [first, rest @ ..] = words else {
        return Ok(Ending::BadWords);
    };
    match Word::of(first) {
        Some(Word::Plan) => plan::run(rt, alloc, rest),
        Some(Word::Schedule) => schedule::run(rt, alloc, rest),
        Some(Word::All) => run_all(rt, alloc),
        None => Ok(Ending::BadWords),
    }
}

fn main(rt: HostRuntime) -> io::Result<ExitCode> {
    let alloc = rt.alloc();
    let texts: Vec<String> = env::args(&rt)?.skip(1).collect(alloc)?;
    let words: Vec<&str> = texts.iter().map(|text| text.as_str()).collect(alloc)?;
    match run(&rt, alloc, words.as_slice())? {
        Ending::Done => Ok(ExitCode::SUCCESS),
        Ending::BadWords => {
            eprintln!(rt; "bench_plans: bad words")?;
            Ok(ExitCode::from(2))
        }
    }
}
