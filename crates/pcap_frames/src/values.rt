// What a capture file tells.
use air_source::Side;

/// Whose frames of a file are wanted, and which way each goes.
#[derive(Clone, Copy, Debug, PartialEq, Eq)]
pub enum Whose {
    /// All, and each goes to this unit.
    All(Side),
    /// Those of the radio unit whose port has this MAC address: what is sent to it goes to the radio unit, and what else is sent from
    /// it to the distributed unit.
    Port([u8; 6]),
}

/// An eCPRI frame of a file.
#[derive(Clone, Copy, Debug, PartialEq, Eq)]
pub struct PcapFrame<'a> {
    /// The unit that it goes to.
    pub side: Side,
    /// When it was seen, from 0 to 1,000,000,000,000 ns: as long after the start as its packet is after the first.
    pub at: i64,
    /// Its bytes, to the end of its packet.
    pub frame: &'a [u8],
}

/// How a classic file's numbers are read.
#[derive(Clone, Copy, Debug, PartialEq, Eq)]
pub struct Format {
    /// Whether they are lowest byte first.
    pub little: bool,
    /// Whether fractions are in nanoseconds; else they are in microseconds.
    pub nanos: bool,
}

/// How what is left of a file is read.
#[derive(Clone, Copy, Debug, PartialEq, Eq)]
pub enum Layout {
    /// The records of a classic file.
    Records(Format),
    /// The blocks of a pcapng file, in a section whose numbers are lowest byte first or not.
    Blocks(bool),
}

/// A record of a classic file.
#[derive(Clone, Copy)]
pub struct Record<'a> {
    pub seconds: u32,
    /// In the file's unit, without a limit.
    pub fraction: u32,
    /// The bytes that were kept of the packet.
    pub bytes: &'a [u8],
}
