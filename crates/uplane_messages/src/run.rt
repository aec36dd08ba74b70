//! Packed PRBs of a section.
use bfp_codec::Method;

/// The packed PRBs of a section that are next and lie completely in one piece of the message, one after the other.
#[derive(Clone, Copy)]
pub struct DataRun<'a> {
    /// How they are packed; each has as many bytes as `block_len` says for it.
    pub method: Method,
    /// The number of the first on the carrier; the others have the numbers after it.
    pub prb: u16,
    /// How many there are.
    pub count: u16,
    /// All their bytes, where they are in the piece.
    pub packed: &'a [u8],
}

/// A packed PRB of a section that the pieces cut.
#[derive(Clone, Copy)]
pub struct JoinedPrb {
    /// How it is packed.
    pub method: Method,
    /// Its number on the carrier.
    pub prb: u16,
}
