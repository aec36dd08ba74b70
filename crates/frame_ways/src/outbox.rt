// The frames that a unit handed over.
ghost use Rattle.std.specs.Prelude.{◌≡◌, [], ◌∷◌, ◌++◌, MatchOption, OnErr, OnOk};
ghost use Rattle.frame_ways.specs.Pool.{no_spare, without_spare};

use crate::pool::FramePool;
use air_source::{Link, LinkFrame};
use fh_base::{NoMemory, Ticks};
use std::alloc::Global;
use std::collections::VecDeque;
use std::marker::Model;

/// The frames that a unit handed over and that were not taken on yet, and a pool of memory for them. Contracts see the frames, in order,
/// and the pool.
#[derive(Drop)]
pub struct Outbox {
    pool: FramePool,
    frames: VecDeque<LinkFrame>,
}

impl Model for Outbox {
    ghost use Rattle.frame_ways.specs.Outboxes.{Handed};

    ghost Value = { Handed };

    ghost view = { λ outbox. record { frames = outbox.frames.items; pool = outbox.pool } };
}

impl Outbox {
    ghost use Rattle.std.specs.Borrow.{sem};
    ghost use Rattle.frame_ways.specs.Lending.{LendsPool};

    /// No frames. This takes no memory; later growth takes it from `alloc`.
    pub fn new(alloc: Global) -> Outbox
        ensures frames { result.frames ≡ [] }
        ensures pool { result.pool ≡ no_spare }
    {
        Outbox {
            pool: FramePool::new(alloc),
            frames: VecDeque::new(alloc),
        }
    }

    /// The pool from which the frames take their memory, lent to what gives memory back to it, or takes some.
    pub fn pool_mut(&mut self) -> &mut FramePool
        ensures* lends { sem 𝓛 (LendsPool self.entry result) }
        ensures now { result.now ≡ self.old.pool }
    {
        &mut self.pool
    }

    /// Takes out the frame that was handed over first. `None` where there is none.
    pub(crate) fn take_first(&mut self) -> Option<LinkFrame>
        ensures frames { MatchOption result ((self.old.frames ≡ []) × (self.new.frames ≡ [])) (λ f. self.old.frames ≡ f ∷ self.new.frames) }
        ensures pool { self.new.pool ≡ self.old.pool }
    {
        self.frames.pop_front()
    }
}

impl Link for Outbox {
    ghost sent = { λ outbox. outbox.frames };

    fn send(&mut self, at: Ticks, ep: usize, frame: &[u8]) -> Result<(), NoMemory>
        ensures ok { OnOk result (self.new.frames ≡ self.old.frames ++ record { at = at; ep = ep; frame = frame.now } ∷ []) }
        ensures err { OnErr result (self.new.frames ≡ self.old.frames) }
        ensures pool { OnOk result (self.new.pool ≡ without_spare self.old.pool) }
    {
        let kept = self.pool.copy_of(frame)?;
        self.frames.push_back(LinkFrame {
            at,
            ep,
            frame: kept,
        })?;
        Ok(())
    }
}
