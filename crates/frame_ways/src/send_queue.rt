// The frames that wait.
ghost use Rattle.std.specs.Prelude.{◌≡◌, ℕ, ℤ, List, [], ◌++◌, IfNone, OnErr, OnOk};
ghost use Rattle.air_source.specs.declared.links.LinkFrame.{LinkFrame as SpecFrame};
ghost use Rattle.uplink_model.specs.SentLaws.{AreOf};
ghost use Rattle.frame_ways.specs.SendQueues.{LeaveFrom, Gives, IsNextTime, Leaves, Took, WaitsFor, all_queued, first_time, queued};

use crate::outbox::Outbox;
use crate::turns::Turn;
use air_source::LinkFrame;
use fh_base::{Bytes, NoMemory, Ticks};
use std::alloc::Global;
use std::collections::BTreeMap;
use std::marker::Model;

/// The frames that wait for the times at which they leave. Contracts see the list of them, in the order in which they leave.
#[derive(Drop)]
pub struct SendQueue {
    waiting: BTreeMap<Turn, Bytes>,
    /// How many frames were taken in.
    handed: u64,
}

impl Model for SendQueue {
    ghost use Rattle.std.specs.Prelude.{List};
    ghost use Rattle.air_source.specs.declared.links.LinkFrame.{LinkFrame};
    ghost use Rattle.frame_ways.specs.Waiting.{KeepsTurns, waiting_frames};

    ghost Value = { List LinkFrame };

    ghost view = { waiting_frames };

    ghost invariant = { KeepsTurns };
}

impl SendQueue {
    /// No frames. This takes no memory; later growth takes it from `alloc`.
    pub fn make(alloc: Global) -> SendQueue
        ensures empty { result ≡ [] }
        ensures waits { (endpoints : ℕ) (now : ℤ) → WaitsFor endpoints now [] result }
    {
        SendQueue {
            waiting: BTreeMap::new(alloc),
            handed: 0,
        }
    }

    /// Takes in one frame. It follows all that do not leave after it.
    fn put(&mut self, frame: LinkFrame) -> Result<(), NoMemory>
        ensures ok { OnOk result (self.new ≡ queued frame self.old) }
        ensures err { OnErr result (self.new ≡ self.old) }
    {
        let Some(handed) = self.handed.checked_add(1) else {
            return Err(NoMemory);
        };
        let turn = Turn {
            at: frame.at,
            ep: frame.ep,
            serial: self.handed,
        };
        match self.waiting.insert(turn, frame.frame) {
            Ok(_) => {
                self.handed = handed;
                Ok(())
            }
            Err(_) => Err(NoMemory),
        }
    }

    /// Takes in all frames of an outbox, which is empty then. Their bytes are moved and not copied.
    ///
    /// # Errors
    ///
    /// [`NoMemory`] where memory is refused, and where 2^64 - 1 frames were taken in before. Then a frame may be lost.
    pub fn fill(&mut self, outbox: &mut Outbox) -> Result<(), NoMemory>
        ensures filled { OnOk result (self.new ≡ all_queued outbox.old.frames self.old) }
        ensures emptied { OnOk result (outbox.new.frames ≡ []) }
        ensures pool { outbox.new.pool ≡ outbox.old.pool }
        ensures waits { (endpoints : ℕ) (now : ℤ) (handed : List SpecFrame)
            → WaitsFor endpoints now handed self.old → AreOf endpoints outbox.old.frames → LeaveFrom now outbox.old.frames
            → OnOk result (WaitsFor endpoints now (handed ++ outbox.old.frames) self.new) }
    {
        while let Some(frame) = outbox.take_first() {
            self.put(frame)?;
        }
        Ok(())
    }

    /// The time in ticks at which the next frame leaves. `None` where none waits.
    pub fn next_time(&self) -> Option<Ticks>
        ensures time { result ≡ first_time self.now }
        ensures none { IfNone result (self.now ≡ []) }
        ensures next { IsNextTime self.now result }
    {
        match self.waiting.first_key_value() {
            None => None,
            Some((turn, _)) => Some(turn.at),
        }
    }

    /// Takes out the next frame, where it leaves at `tick`. Else this is `None` and the queue is as before.
    pub fn take_at(&mut self, tick: Ticks) -> Option<LinkFrame>
        ensures took { Took tick result self.old self.new }
        ensures gives { (endpoints : ℕ) (handed gone : List SpecFrame) → Leaves endpoints tick.0 handed gone self.old → Gives endpoints tick.0 handed gone result self.new }
    {
        if self.next_time() != Some(tick) {
            return None;
        }
        match self.waiting.pop_first() {
            None => None,
            Some((turn, frame)) => Some(LinkFrame {
                at: turn.at,
                ep: turn.ep,
                frame,
            }),
        }
    }
}
