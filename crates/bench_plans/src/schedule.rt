// A plan, whose frames are sent.
ghost use Rattle.std.specs.Prelude.{◌≤◌, IfSome};

mod plans;
mod sending;
mod works;

use crate::words::Ending;
use du_scheduler::PlanRefusal;
use plans::{Kind, Sizes};
use std::alloc::Global;
use std::io;
use works::{Work, perform};

/// A number from `least` to `most`: that of the word, or the nearest one.
fn number(word: &str, least: u32, most: u32) -> Option<u32>
    requires { least ≤ most }
    ensures least { IfSome result (λ n. least ≤ n) }
    ensures most { IfSome result (λ n. n ≤ most) }
{
    let number = word.parse::<u32>().ok()?;
    Some(number.max(least).min(most))
}

/// What is done with which plan.
#[derive(Clone, Copy)]
struct Load {
    work: Work,
    kind: Kind,
    count: u32,
    sizes: Sizes,
    ghost few: { count ≤ 65536 },
}

impl Load {
    fn of(words: &[&str]) -> Option<Load> {
        let [work, kind, count, prbs, fragment] = *words else {
            return None;
        };
        let count = number(count, 0, 65_536)?;
        let prbs = number(prbs, 1, 273)? as u16;
        let fragment = number(fragment, 128, 9_000)? as usize;
        Some(Load {
            work: Work::of(work)?,
            kind: Kind::of(kind)?,
            count,
            sizes: Sizes { prbs, fragment },
        })
    }
}

/// `frames|check|lines usual|whole|backwards COUNT PRBS FRAGMENT`: makes a plan and prints one line on it.
///
/// `frames` tests the plan and takes all its frames, `check` takes none, and `lines` does not test it either. `usual`: four endpoints at 30
/// kHz have a downlink line of 14 symbols in the first three of each four of COUNT slots; `whole`: one endpoint at 240 kHz has one in
/// each of COUNT slots; `backwards`: the same, listed from the last slot on. Endpoints have PRBS PRBs and mantissas of 9 bits, and a
/// frame has at most FRAGMENT application bytes of data.
pub fn run(rt: &impl Print, alloc: Global, words: &[&str]) -> io::Result<Ending> {
    let Some(load) = Load::of(words) else {
        return Ok(Ending::BadWords);
    };
    match perform(alloc, load.work, load.kind, load.count, &load.sizes) {
        Ok(done) => {
            println!(rt;
                "{} lines, {} commands, {} fragments, {}",
                done.lines, done.sums.commands, done.sums.fragments, done.sums.sum
            )?
        }
        Err(PlanRefusal::At { index, why }) => println!(rt; "refused: line {index}: {why}")?,
        Err(PlanRefusal::NoMemory) => println!(rt; "no memory")?,
    }
    Ok(Ending::Done)
}
