//! The queue of messages that have frames left.
ghost use Rattle.std.specs.Prelude.{◌≡◌, ◌+◌, ◌<◌, ◌≤◌, List, [], IfOk, IfSome};
ghost use Rattle.du_scheduler.specs.declared.turns.Turn.{Turn as SpecTurn};
ghost use Rattle.du_scheduler.specs.Turns.{IsRun, next_of, rest_of};

use crate::turns::{Run, Turn, next_of};
use fh_base::{NoMemory, Ticks};
use std::alloc::Global;
use std::cmp::Reverse;
use std::collections::BinaryHeap;

/// The frames of many messages that have not left yet.
#[derive(Drop)]
pub struct Queue {
    heap: BinaryHeap<Reverse<Run>>,
    gap: u32,
}

impl Queue {
    ghost use Rattle.std.specs.BinaryHeap.{heap_capacity, heap_len};
    ghost use Rattle.du_scheduler.specs.Queues.{Gives, IsMerged, IsQueue, PutBack, StandsFor, first_time, gap_of, held, room};

    /// A queue without frames and with room for so many messages. The frames of a message leave
    /// `gap` ticks apart, and those that would be too late at the last time.
    pub fn make(alloc: Global, gap: u32, messages: usize) -> Result<Queue, NoMemory>
        ensures queue { IfOk result (λ q. IsQueue q) }
        ensures room { IfOk result (λ q. messages ≤ room q) }
        ensures held { IfOk result (λ q. held q ≡ 0) }
        ensures gap { IfOk result (λ q. gap_of q ≡ gap) }
        ensures stands { IfOk result (λ q. StandsFor q []) }
    {
        let heap = BinaryHeap::with_capacity(alloc, messages)?;
        Ok(Queue { heap, gap })
    }

    /// Puts a message back whose next frame was given.
    fn put_back(&mut self, run: Option<Run>)
        requires queue { IsQueue self.old }
        requires room { held self.old < room self.old }
        requires run { IfSome run (λ r. IsRun r) }
        ensures queue { IsQueue self.new }
        ensures gap { gap_of self.new ≡ gap_of self.old }
        ensures put { PutBack self.old run self.new }
    {
        if let Some(next) = run {
            let pushed = self.heap.push(Reverse(next)).is_ok();
            prove!(pushed);
        }
    }

    /// Adds a message. There is room for it.
    pub fn add(&mut self, run: Run)
        requires queue { IsQueue self.old }
        requires room { held self.old < room self.old }
        requires run { IsRun run }
        ensures queue { IsQueue self.new }
        ensures gap { gap_of self.new ≡ gap_of self.old }
        ensures room { room self.old ≤ room self.new }
        ensures held { held self.new ≡ held self.old + 1 }
        ensures stands { (l all : List SpecTurn) → StandsFor self.old l → IsMerged l (rest_of (gap_of self.old) run) all → StandsFor self.new all }
    {
        let pushed = self.heap.push(Reverse(run)).is_ok();
        prove!(pushed);
    }

    /// The next frame of all; None exactly where none is left. This takes no memory.
    pub fn next(&mut self) -> Option<Turn>
        requires { IsQueue self.old }
        ensures queue { IsQueue self.new }
        ensures gap { gap_of self.new ≡ gap_of self.old }
        ensures gives { (l : List SpecTurn) → StandsFor self.old l → Gives l result self.new }
    {
        let Some(Reverse(run)) = self.heap.pop() else {
            return None;
        };
        self.put_back(next_of(self.gap, &run));
        Some(run.turn)
    }

    /// When the next frame leaves; None exactly where none is left.
    pub fn next_time(&self) -> Option<Ticks>
        requires { IsQueue self.now }
        ensures { (l : List SpecTurn) → StandsFor self.now l → result ≡ first_time l }
    {
        match self.heap.peek() {
            Some(Reverse(run)) => Some(run.turn.at),
            None => None,
        }
    }
}
