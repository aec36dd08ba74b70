//! Why a capture file is refused.
ghost use Rattle.std.specs.Prelude.{◌≡◌, ◌≤◌, length};
ghost use Rattle.pcap_frames.specs.Refusals.{name_of, why_of};
ghost use Rattle.pcap_frames.specs.declared.refusals.PcapFault.TheVariants.{NoMemory as FaultNoMemory};

use crate::pcapng_refusals::BlockWhy;
use fh_base::NoMemory;
use thiserror::Error;

/// What is wrong with a capture file.
#[derive(Clone, Copy, Debug, PartialEq, Eq, Error)]
pub enum PcapWhy {
    /// The magic is not there, or other bytes are in its place.
    #[error("not a capture file")]
    Magic,
    /// The file ends inside its head, a record or a block, or a block has a length that does not fit.
    #[error("a head, a record or a block that is not complete")]
    Cut,
    /// A packet of an older form of pcapng.
    #[error("a packet of an older form")]
    OldPacket,
    /// An option of an interface has a wrong length.
    #[error("an option of an interface of a wrong length")]
    Option,
    /// The interface of a packet is not one of its section.
    #[error("a packet of no interface of its section")]
    NoInterface,
    /// The link type is not that of Ethernet.
    #[error("a link type other than Ethernet")]
    LinkType,
    /// An eCPRI frame has more than 9,216 bytes.
    #[error("an eCPRI frame of more than 9216 bytes")]
    LongFrame,
    /// The time of an eCPRI frame lies outside 0 to 1,000,000,000,000 ns.
    #[error("a time outside 0 to 1000000000000 ns")]
    TimeRange,
}

impl PcapWhy {
    /// The name under which the reason is printed: its own.
    pub fn name(self) -> &'static str
        ensures name { result.now ≡ name_of self }
        ensures short { length result.now ≤ 11 }
    {
        match self {
            PcapWhy::Magic => "Magic",
            PcapWhy::Cut => "Cut",
            PcapWhy::OldPacket => "OldPacket",
            PcapWhy::Option => "Option",
            PcapWhy::NoInterface => "NoInterface",
            PcapWhy::LinkType => "LinkType",
            PcapWhy::LongFrame => "LongFrame",
            PcapWhy::TimeRange => "TimeRange",
        }
    }
}

/// The reason for which a block is refused, as one of the file's.
pub(crate) fn why_of(why: BlockWhy) -> PcapWhy
    ensures { result ≡ why_of why }
{
    match why {
        BlockWhy::Cut => PcapWhy::Cut,
        BlockWhy::Magic => PcapWhy::Magic,
        BlockWhy::OldPacket => PcapWhy::OldPacket,
        BlockWhy::Option => PcapWhy::Option,
        BlockWhy::NoInterface => PcapWhy::NoInterface,
        BlockWhy::LinkType => PcapWhy::LinkType,
    }
}

/// The first fault of a capture file.
#[derive(Clone, Copy, Debug, PartialEq, Eq, Error)]
#[error("byte {place}: {why}")]
pub struct PcapRefusal {
    /// The byte of the file, from 0, at which the record or the block begins; in a classic file 20 for `LinkType`, and 0 for the
    /// other faults of its head.
    pub place: usize,
    /// What is wrong there.
    pub why: PcapWhy,
}

/// Why a file was not read.
#[derive(Clone, Copy, Debug, PartialEq, Eq, Error)]
pub enum PcapFault {
    /// It is refused.
    #[error("{0}")]
    Refused(PcapRefusal),
    /// There is no memory for its interfaces.
    #[error("no memory")]
    NoMemory,
}

impl From<NoMemory> for PcapFault {
    ghost from_gives = { λ _ e. e ≡ FaultNoMemory };

    fn from(_: NoMemory) -> Self {
        PcapFault::NoMemory
    }
}
