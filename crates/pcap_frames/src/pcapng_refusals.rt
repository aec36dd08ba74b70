//! Why a block is refused.
use thiserror::Error;

/// What is wrong with a block.
#[derive(Clone, Copy, Debug, PartialEq, Eq, Error)]
pub enum BlockWhy {
    /// It is not complete, its two lengths differ or are none that it may have, or a packet's bytes have no place in it.
    #[error("a block that is not complete")]
    Cut,
    /// A section begins, and the bytes that tell its order of bytes are others.
    #[error("a section without its order of bytes")]
    Magic,
    /// A packet of an older form.
    #[error("a packet of an older form")]
    OldPacket,
    /// An option of an interface reaches beyond the block, or is a resolution or an offset of another length.
    #[error("an option of an interface of a wrong length")]
    Option,
    /// The interface of a packet is not one of the section.
    #[error("a packet of no interface of its section")]
    NoInterface,
    /// The link type of a packet's interface is not that of Ethernet.
    #[error("a link type other than Ethernet")]
    LinkType,
}
