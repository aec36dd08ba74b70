// What a meter is asked for, and what it answers.
use crate::message::DelayMessage;

/// The four ways to begin a measurement (eCPRI 2.0, section 3.2.4.6).
#[derive(Clone, Copy, Debug, PartialEq, Eq)]
pub enum Kind {
    /// By a Request.
    One,
    /// By a Request with Follow_Up and its Follow_Up.
    Two,
    /// By a Remote Request, which the peer answers by a Request.
    RemoteOne,
    /// By a Remote Request with Follow_Up, which the peer answers by a Request with Follow_Up.
    RemoteTwo,
}

/// What a begin sends.
#[derive(Clone, Copy, Debug, PartialEq, Eq)]
pub enum Begun {
    /// This message.
    Send(DelayMessage),
    /// These messages, in this order.
    SendTwo(DelayMessage, DelayMessage),
    /// Nothing: the id is in use.
    InUse,
}

/// What a meter makes of a message. Results are in units of 2^-16 ns.
#[derive(Clone, Copy, Debug, PartialEq, Eq)]
pub enum MeterStep {
    /// It sends this message.
    Send(DelayMessage),
    /// It sends these messages, in this order.
    SendTwo(DelayMessage, DelayMessage),
    /// It sends this message, and the delay from the peer to this end is known.
    SendResult(DelayMessage, i128),
    /// The delay from this end to the peer is known.
    Result(i128),
    /// The message was received before: its Response is sent again.
    Again(DelayMessage),
    /// Its Follow_Up is awaited.
    Noted,
    /// It is received again, or the id is in use.
    Repeat,
    /// Nothing is known that it could answer, or its action is none of the six.
    Unknown,
}
