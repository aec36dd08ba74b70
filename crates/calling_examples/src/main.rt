//! A caller of each crate that is of use on its own: the code that its `CALLING.md` shows. Reads lines from standard
//! input, and prints for each what its caller answers; any other line is printed as it is.
#![tactic(auto)]

mod answers;
mod captures;
mod commands;
mod data;
mod delays;
mod fragments;
mod frames;
mod samples;
mod windows;

use answers::answer;
use std::io;

fn main(rt: HostRuntime) -> io::Result<()> {
    let alloc = rt.alloc();
    for line in rt.lines(alloc) {
        let text = answer(alloc, line?.as_str())?;
        println!(rt; "{text}")?;
    }
    Ok(())
}
