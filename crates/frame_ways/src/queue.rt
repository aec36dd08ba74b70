// The queue of landings.
ghost use Rattle.std.specs.Prelude.{◌≡◌, ℤ, All, IfOk};

use crate::landings::Landing;
use crate::sorting::{listed, sort_by_time};
use fh_base::{NoMemory, Ticks};
use std::alloc::Global;
use std::marker::Model;

/// The frames that have not landed yet, by time, those of one time in the order of the list. All memory is taken when it
/// is made, and each other call takes constant time.
#[derive(Drop)]
pub struct LandingQueue {
    landings: Vec<Landing>,
    next: usize,
}

impl Model for LandingQueue {
    ghost use Rattle.std.specs.Prelude.{List, drop};
    ghost use Rattle.frame_ways.specs.Queues.{AreRising};
    ghost use Rattle.frame_ways.specs.declared.landings.Landing.{Landing};

    ghost Value = { List Landing };

    ghost view = { λ q. drop q.next q.landings.items };

    ghost invariant = { λ q. AreRising (drop q.next q.landings.items) };
}

impl LandingQueue {
    ghost use Rattle.frame_ways.specs.Queues.{AreRising, at_time, enumerated, IsPlaced, Took, first_time};

    /// Takes all memory, for the frames of a list with these times, in ticks. `NoMemory` where it cannot be had.
    pub fn make(alloc: Global, times: &[Ticks]) -> Result<LandingQueue, NoMemory>
        ensures at_time { IfOk result (λ q. (t : ℤ) → at_time t q ≡ at_time t (enumerated times.now)) }
        ensures rising { IfOk result (λ q. AreRising q) }
        ensures placed { IfOk result (λ q. All (IsPlaced times.now) q) }
    {
        let mut landings = listed(alloc, times)?;
        sort_by_time(&mut landings)?;
        Ok(LandingQueue { landings, next: 0 })
    }

    /// The least time, in ticks, of the frames left. None exactly where no frame is left.
    pub fn next_time(&self) -> Option<Ticks>
        ensures time { result ≡ first_time self.now }
        ensures rising { AreRising self.now }
    {
        if self.next < self.landings.len() {
            Some(self.landings[self.next].at)
        } else {
            None
        }
    }

    /// The place of the first frame left, where its time is `at`, in ticks; it is left no more. Else None, and all stays.
    pub fn take_at(&mut self, at: Ticks) -> Option<usize>
        ensures took { Took at result self.old self.new }
        ensures rising { AreRising self.new }
    {
        if self.next < self.landings.len() {
            let landing = self.landings[self.next];
            if landing.at == at {
                self.next += 1;
                return Some(landing.index);
            }
        }
        None
    }
}
