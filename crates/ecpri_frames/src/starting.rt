//! The walk over the whole messages of a frame, from its first.
ghost use Rattle.std.specs.Prelude.{◌≡◌, ◌*◌, ◌≤◌, length};
ghost use Rattle.ecpri_frames.specs.Gathering.{whole_messages};
ghost use Rattle.ecpri_frames.specs.Left.{frame_of, left_of};

use crate::decoding::Pdu;
use crate::whole::Messages;

/// The messages of a frame whose payload is whole, in order, up to the first fault of the frame;
/// [`Messages::refusal`] says that fault. The frame may hold any bytes.
pub fn messages(frame: &[u8]) -> Messages<'_>
    ensures frame { frame_of result ≡ frame.now }
    ensures messages { left_of result ≡ whole_messages frame.now }
    // each header has four bytes
    ensures few { length (left_of result) * 4 ≤ length frame.now }
{
    Messages {
        frame,
        at: 0,
        pdu: Pdu::new(),
    }
}
