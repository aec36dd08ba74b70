// A link in memory.
ghost use Rattle.std.specs.Prelude.{◌≡◌, []};

use crate::{Link, LinkFrame};
use fh_base::{Bytes, List, NoMemory, Ticks};
use std::alloc::Global;

/// A link that keeps the frames that were sent.
#[derive(Drop)]
pub struct MemoryLink {
    alloc: Global,
    frames: List<LinkFrame>,
}

impl MemoryLink {
    /// A link over which nothing was sent. This takes no memory.
    pub fn new(alloc: Global) -> Self
        ensures { ⟦<MemoryLink as Link>⟧.sent result ≡ [] }
    {
        MemoryLink {
            alloc,
            frames: List::new(alloc),
        }
    }

    /// The frames that were sent, in order.
    pub fn frames(&self) -> &List<LinkFrame>
        ensures { result.now ≡ ⟦<MemoryLink as Link>⟧.sent self.now }
    {
        &self.frames
    }
}

impl Link for MemoryLink {
    ghost sent = { λ l. l.frames };

    fn send(&mut self, at: Ticks, ep: usize, frame: &[u8]) -> Result<(), NoMemory> {
        let mut kept = Bytes::new(self.alloc);
        kept.push_all(frame)?;
        self.frames.push(LinkFrame {
            at,
            ep,
            frame: kept,
        })
    }
}
