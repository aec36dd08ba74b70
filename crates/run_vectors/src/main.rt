//! Runs of the programs over inputs in memory, whose answers are from outside: reads a table from standard input, and prints for each run
//! its status and what it wrote, or how much and its digest.
//!
//! Empty lines, and those that begin with `#`, are printed as they are. At a line that is no entry the program ends: it names the line on
//! standard error, and its status is 2.
//!
//! Its tests are of complete runs with ends in memory that fail: sources and sinks (`faults`, `captures`, `explained`), and words that read
//! nothing (`words`). They are beside `top_call`, so that it is proved without them.
#![tactic(auto)]

mod answers;
#[cfg(test)]
mod captures;
mod cases;
mod entries;
#[cfg(test)]
mod explained;
#[cfg(test)]
mod faults;
mod running;
#[cfg(test)]
mod runs;
mod texts;
#[cfg(test)]
mod words;

use answers::{Answer, answer_to};
use cases::Case;
use fh_base::NoMemory;
use std::alloc::AllocError;
use std::io;
use std::io::{BufRead, BufReader};
use std::process::ExitCode;

fn main(rt: HostRuntime) -> io::Result<ExitCode> {
    let alloc = rt.alloc();
    let mut case = Case::new(alloc);
    for (index, line) in BufReader::new(alloc, rt.reader())?.lines(alloc).enumerate() {
        let line = line?;
        match answer_to(alloc, &mut case, line.as_str()) {
            Ok(Answer::Text(text)) => println!(rt; "{text}")?,
            Ok(Answer::Nothing) => {}
            Ok(Answer::NoEntry) => {
                eprintln!(rt; "run_vectors: line {} is no entry", index + 1)?;
                return Ok(ExitCode::from(2));
            }
            Err(NoMemory) => return Err(io::Error::from(AllocError)),
        }
    }
    Ok(ExitCode::SUCCESS)
}
