// What is done with a plan.
ghost use Rattle.std.specs.Prelude.{◌≤◌};

use crate::schedule::plans::{Kind, Sizes, config, lines};
use crate::schedule::sending::{Sums, send_all};
use du_scheduler::{Plan, PlanRefusal};
use std::alloc::Global;

/// What is done with a plan.
#[derive(Clone, Copy, Debug, PartialEq, Eq)]
pub enum Work {
    /// Its lines are made.
    Lines,
    /// It is tested, and its memory is taken.
    Check,
    /// All its frames are taken.
    Frames,
}

impl Work {
    /// What a word names.
    pub fn of(word: &str) -> Option<Work> {
        match word {
            "lines" => Some(Work::Lines),
            "check" => Some(Work::Check),
            "frames" => Some(Work::Frames),
            _ => None,
        }
    }
}

/// How many lines a plan had, and what was sent.
#[derive(Clone, Copy, Debug, PartialEq, Eq)]
pub struct Done {
    pub lines: usize,
    pub sums: Sums,
}

/// Does it with the plan of so many slots.
pub fn perform(
    alloc: Global,
    work: Work,
    kind: Kind,
    count: u32,
    sizes: &Sizes,
) -> Result<Done, PlanRefusal>
    requires { count ≤ 65536 }
{
    let plan_lines = match lines(alloc, kind, count) {
        Ok(plan_lines) => plan_lines,
        Err(_) => return Err(PlanRefusal::NoMemory),
    };
    let config = match config(kind, sizes) {
        Some(config) => config,
        None => return Err(PlanRefusal::NoMemory),
    };
    let mut done = Done {
        lines: plan_lines.len(),
        sums: Sums::none(),
    };
    if work == Work::Lines || plan_lines.len() > 65_536 {
        return Ok(done);
    }
    let mut plan = Plan::check(alloc, &config, &plan_lines)?;
    if work == Work::Frames {
        done.sums = send_all(&mut plan);
    }
    Ok(done)
}
