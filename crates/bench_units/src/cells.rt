// Cells that are added, and cells that are marked.
mod adding;
mod marking;
mod numbered;

use crate::words::Ending;
use std::alloc::Global;
use std::io;

/// What is done with the cells.
#[derive(Clone, Copy)]
enum Work {
    /// They are added to a mixer.
    Add,
    /// They are marked in spans.
    Mark,
}

impl Work {
    fn of(word: &str) -> Option<Work> {
        match word {
            "add" => Some(Work::Add),
            "mark" => Some(Work::Mark),
            _ => None,
        }
    }

    fn name(self) -> &'static str {
        match self {
            Work::Add => "add",
            Work::Mark => "mark",
        }
    }
}

/// What is done, with how many cells, of how many units or endpoints.
#[derive(Clone, Copy)]
struct Load {
    work: Work,
    count: u32,
    parts: u8,
}

impl Load {
    fn of(words: &[&str]) -> Option<Load> {
        let [work, count, parts] = *words else {
            return None;
        };
        Some(Load {
            work: Work::of(work)?,
            count: count.parse::<u32>().ok()?,
            parts: parts.parse::<u8>().ok()?,
        })
    }
}

/// `add COUNT UNITS`: adds the cells of COUNT places, of as many units one after the other, to a mixer. `mark COUNT ENDPOINTS`: marks COUNT
/// symbols of as many endpoints in turn. Each prints a number of what it did.
pub fn run(rt: &impl Print, alloc: Global, words: &[&str]) -> io::Result<Ending> {
    let Some(load) = Load::of(words) else {
        return Ok(Ending::BadWords);
    };
    let done = match load.work {
        Work::Add => adding::run(alloc, load.count, load.parts),
        Work::Mark => marking::run(alloc, load.count, load.parts),
    };
    match done {
        Some(number) => println!(rt;
            "{} {} {}: {number}",
            load.work.name(),
            load.count,
            load.parts
        )?,
        None => println!(rt; "no run")?,
    }
    Ok(Ending::Done)
}
