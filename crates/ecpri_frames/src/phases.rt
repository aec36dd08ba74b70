//! Where in a frame a decoder is.
ghost use Rattle.std.specs.Prelude.{◌≡◌, ◌<◌};
ghost use Rattle.ecpri_frames.specs.Phases.{awaited, begun};
ghost use Rattle.ecpri_frames.specs.Turns.{IsBehindPayload, IsBehindHead};

use crate::heads::{Head, pad_after};

/// What the next byte belongs to.
#[derive(Clone, Copy)]
pub(crate) enum Phase {
    /// It is the first byte of a header.
    First,
    /// It is the second, third or fourth one, after these.
    Second(u8),
    Third(u8, u8),
    Fourth(u8, u8, u8),
    /// It is a payload byte, of so many that are still to follow.
    Body(Head, u16),
    /// It is a padding byte, of so many that are still to follow.
    Padding(u8),
    /// The PDU is over.
    Over,
    /// The header that began at this place has another revision.
    Faulty(usize),
}

/// The phase after a payload.
pub(crate) fn behind_payload(head: Head) -> Phase
    ensures leads { IsBehindPayload head result }
    ensures waits { 0 < awaited result }
    ensures behind { begun result ≡ 0 }
{
    if !head.more {
        return Phase::Over;
    }
    let left = pad_after(head.size);
    if left == 0 {
        Phase::First
    } else {
        Phase::Padding(left as u8)
    }
}

/// The phase after a header.
pub(crate) fn behind_head(head: Head) -> Phase
    ensures leads { IsBehindHead head result }
    ensures waits { 0 < awaited result }
    ensures behind { begun result ≡ 0 }
{
    if head.size == 0 {
        behind_payload(head)
    } else {
        Phase::Body(head, head.size)
    }
}
