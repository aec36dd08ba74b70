// A plan, tested.
mod lines;

ghost use Rattle.std.specs.Prelude.{◌≤◌};

use crate::words::Ending;
use du_scheduler::{PlanRefusal, tested};
use lines::{Kind, config, lines};
use std::alloc::Global;
use std::io;

/// Of which lines a plan is, and how many it has.
#[derive(Clone, Copy)]
struct Load {
    kind: Kind,
    count: u32,
    ghost few: { count ≤ 65536 },
}

impl Load {
    fn of(words: &[&str]) -> Option<Load> {
        let [kind, count] = *words else {
            return None;
        };
        Some(Load {
            kind: Kind::of(kind)?,
            count: count.parse::<u32>().ok()?.min(65_536),
        })
    }
}

/// `slots|usual|elements LINES`: tests a plan of so many lines, at most 65,536, and prints one line, which says whether it is accepted, or
/// which line is refused and why.
pub fn run(rt: &impl Print, alloc: Global, words: &[&str]) -> io::Result<Ending> {
    let Some(load) = Load::of(words) else {
        return Ok(Ending::BadWords);
    };
    tell(rt, alloc, &load)?;
    Ok(Ending::Done)
}

fn tell(rt: &impl Print, alloc: Global, load: &Load) -> io::Result<()> {
    let count = load.count;
    let plan = match lines(alloc, load.kind, count) {
        Ok(plan) => plan,
        Err(_) => return println!(rt; "no memory"),
    };
    let config = match config(load.kind) {
        Some(config) => config,
        None => return println!(rt; "no configuration"),
    };
    match tested(alloc, &config, &plan) {
        Ok(()) => println!(rt; "accepted: {count} lines"),
        Err(PlanRefusal::At { index, why }) => println!(rt; "refused: line {index}: {why}"),
        Err(PlanRefusal::NoMemory) => println!(rt; "no memory"),
    }
}
