// Memory of frames that landed.
ghost use Rattle.std.specs.Prelude.{◌≡◌, ◌≤◌, length, IfOk, OnOk};
ghost use Rattle.frame_ways.specs.Pool.{no_spare, with_spare, without_spare};

use fh_base::{Bytes, NoMemory};
use std::alloc::Global;
use std::marker::Model;

/// Of how many frames the memory is kept.
const ROOM: usize = 32;

/// Memory of frames that landed, for those that leave next. How much of it there is changes no answer but [`NoMemory`].
///
/// Contracts see the frames that it keeps, and for how many it has room: none at first, and 32 once a frame was made.
#[derive(Drop)]
pub struct FramePool {
    alloc: Global,
    room: usize,
    spare: Vec<Bytes>,
}

impl Model for FramePool {
    ghost use Rattle.frame_ways.specs.Pool.{Pool};

    ghost Value = { Pool };

    ghost use Rattle.frame_ways.specs.Spare.{KeepsRoom, pool_of};

    ghost view = { pool_of };

    ghost invariant = { KeepsRoom };
}

impl FramePool {
    /// No memory yet. This takes none; later growth takes it from `alloc`.
    pub fn new(alloc: Global) -> FramePool
        ensures { result ≡ no_spare }
    {
        FramePool {
            alloc,
            room: 0,
            spare: Vec::new(alloc),
        }
    }

    /// A frame of these bytes, in memory that was given back where there is some. From then on there is room for 32 frames.
    ///
    /// # Errors
    ///
    /// [`NoMemory`] where memory is refused. A frame's memory may be lost then.
    pub fn copy_of(&mut self, bytes: &[u8]) -> Result<Bytes, NoMemory>
        ensures copy { IfOk result (λ b. b ≡ bytes.now) }
        ensures ok { OnOk result (self.new ≡ without_spare self.old) }
        ensures few { length self.new.spare ≤ 32 }
    {
        self.make_room()?;
        let mut copy = match self.spare.pop() {
            Some(spare) => spare,
            None => Bytes::with_capacity(self.alloc, bytes.len())?,
        };
        copy.clear();
        copy.push_all(bytes)?;
        Ok(copy)
    }

    /// Keeps the memory of a frame for another, where there is room for it, and else lets it go. This takes no memory.
    pub fn give_back(&mut self, frame: Bytes)
        ensures kept { self.new ≡ with_spare frame self.old }
        ensures few { length self.new.spare ≤ 32 }
    {
        if self.spare.len() < self.room {
            let _ = self.spare.push(frame);
        }
    }

    /// Takes the memory of the list, where it has none yet.
    fn make_room(&mut self) -> Result<(), NoMemory>
        ensures spare { self.new.spare ≡ self.old.spare }
        ensures ok { OnOk result (self.new.room ≡ 32) }
        ensures few { length self.new.spare ≤ 32 }
    {
        if self.room == 0 {
            self.spare.reserve_exact(ROOM)?;
            self.room = ROOM;
        }
        Ok(())
    }
}
