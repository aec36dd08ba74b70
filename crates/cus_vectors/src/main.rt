//! Vectors of an open fronthaul, whose values are from outside: reads entries from standard input, a line each, and
//! prints for each what the crates say. `tables.py` writes the entries and the wanted answers.
//!
//! An empty line, and one that begins with `#`, is printed as it is. A line that is no entry is answered by its number.
#![tactic(auto)]

mod answers;
mod blocks;
mod control;
mod fragments;
mod frames;
mod hexadecimal;
mod numerologies;
mod section_texts;
mod times;
mod words;

use answers::answer;
use fh_base::Ticks;
use fragments::Fragments;
use std::io;
use std::io::{BufRead, BufReader};

fn main(rt: HostRuntime) -> io::Result<()> {
    let alloc = rt.alloc();
    let mut fragments = Fragments::make(alloc, Ticks(0))?;
    for (index, line) in BufReader::new(alloc, rt.reader())?.lines(alloc).enumerate() {
        let line = line?;
        match answer(alloc, &mut fragments, line.as_str())? {
            Some(text) => println!(rt; "{text}")?,
            None => println!(rt; "line {} is no entry", index + 1)?,
        }
    }
    Ok(())
}
