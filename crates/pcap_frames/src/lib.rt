//! Capture files, classic pcap and pcapng: the eCPRI frames in a capture of the outside (this project's profile).
//!
//! [`check`] tests a complete file, and [`frames`] goes over the eCPRI frames of one that passed: all of them, or those to or from one
//! address ([`Whose`]). A classic file has 24 bytes and then records of 16 bytes and the bytes that were kept; a pcapng file is a list of
//! blocks. All its own numbers are in the order of bytes that its magic tells, or the beginning of the section, which is never that of the
//! Ethernet frames in it. Only [`check`] takes memory, for the interfaces of a pcapng file, and no bytes are copied.
//!
//! [`block`] reads the block of a pcapng file that some bytes begin with, in the order of bytes of its section and with the interfaces that
//! the section has so far. It says where the block ends and what it holds: the beginning of a section, an interface, a packet with its
//! time, or nothing that is looked at.
#![tactic(auto)]

mod blocks;
mod checking;
mod ethernet;
mod files;
mod finding;
mod heads;
mod interfaces;
mod iterating;
mod numbers;
mod opening;
mod packet;
mod packets;
mod parts;
mod pcapng_packets;
mod pcapng_refusals;
mod pcapng_values;
mod ranges;
mod refusals;
mod sections;
mod seeking;
mod starting;
mod times;
mod values;
mod walks;
mod wanted;
mod wanting;

pub use blocks::{SECTION, block};
pub use checking::check;
pub use heads::PcapHead;
pub use iterating::Frames;
pub use packet::Packet;
pub use pcapng_refusals::BlockWhy;
pub use pcapng_values::{Block, Content, Interface};
pub use refusals::{PcapFault, PcapRefusal, PcapWhy};
pub use starting::frames;
pub use values::{PcapFrame, Whose};
