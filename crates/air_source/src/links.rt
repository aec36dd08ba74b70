// What takes the frames that a unit sends.
ghost use Rattle.std.specs.Prelude.{◌≡◌, List, [], ◌∷◌, ◌++◌, OnOk, OnErr};
ghost use Rattle.air_source.specs.declared.links.LinkFrame.{LinkFrame};

use fh_base::{Bytes, NoMemory, Ticks};

/// A frame that was sent, one eCPRI PDU.
#[derive(Drop)]
pub struct LinkFrame {
    /// When it was sent.
    pub at: Ticks,
    /// The number of its endpoint in the configuration, from 0.
    pub ep: usize,
    /// Its bytes.
    pub frame: Bytes,
}

/// What takes the frames that a unit sends.
pub trait Link {
    /// The frames that were sent, in order.
    ghost sent: { Self → List LinkFrame };

    /// Sends a frame of endpoint number `ep` at a time. After `NoMemory` nothing was sent.
    fn send(&mut self, at: Ticks, ep: usize, frame: &[u8]) -> Result<(), NoMemory>
        ensures ok { OnOk result (sent self.new ≡ sent self.old ++ record { at = at; ep = ep; frame = frame.now } ∷ []) }
        ensures err { OnErr result (sent self.new ≡ sent self.old) };
}
