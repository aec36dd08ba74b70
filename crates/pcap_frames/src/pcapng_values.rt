// What a block tells.
use crate::packet::Packet;

/// An interface of a section.
#[derive(Clone, Copy, Debug, PartialEq, Eq)]
pub struct Interface {
    /// The link type; 1 is Ethernet.
    pub link: u16,
    /// The unit of its packets' times: 10^-r s where this number r is under 128, and 2^-(r - 128) s else.
    pub resolution: u8,
    /// The seconds that are added to these times, as they count from 2^63 s before: 2^63 where nothing is added.
    pub offset: u64,
}

/// What a block holds.
#[derive(Clone, Copy)]
pub enum Content<'a> {
    /// A section begins, without interfaces. Whether its numbers are lowest byte first.
    Section(bool),
    /// The next interface of its section.
    Interface(Interface),
    /// A packet.
    Packet(Packet<'a>),
    /// Nothing that is looked at.
    Other,
}

/// A block that is not refused.
#[derive(Clone, Copy)]
pub struct Block<'a> {
    /// How many bytes it has.
    pub size: usize,
    /// What it holds.
    pub content: Content<'a>,
}
