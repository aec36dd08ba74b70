// The states of a measurement id.
use crate::message::DelayMessage;
use crate::stamps::Stamp;

/// What this end has begun.
#[derive(Clone, Copy, Debug, PartialEq, Eq)]
pub enum OwnState {
    /// Nothing.
    Idle,
    /// A request was sent with this stamp, and its Response is awaited.
    Waiting(Stamp),
    /// The peer was asked to send a request.
    Remote,
    /// A result was had.
    Done,
}

/// What the peer has begun.
#[derive(Clone, Copy, Debug, PartialEq, Eq)]
pub enum PeerState {
    /// Nothing.
    Nothing,
    /// A Request with Follow_Up was received with this stamp, and its Follow_Up is awaited.
    Noted(Stamp),
    /// This message was answered by a Response with this stamp.
    Answered(DelayMessage, Stamp),
}

/// The own state and the peer state of a measurement id.
#[derive(Clone, Copy, Debug, PartialEq, Eq)]
pub struct Exchange {
    pub own: OwnState,
    pub peer: PeerState,
}
