// The fixed bytes of a capture.

/// The first eight bytes of a capture, `FHCAP001` in ASCII.
pub const MAGIC: [u8; 8] = [0x46, 0x48, 0x43, 0x41, 0x50, 0x30, 0x30, 0x31];

/// How many bytes of a record are before its frame.
pub(crate) const HEAD: usize = 13;
