//! Why a capture is not written as a pcap file.
ghost use Rattle.std.specs.Prelude.{◌≡◌, ◌≤◌, length};
ghost use Rattle.pcap_export.specs.Refusals.{name_of};

use capture_records::CaptureWhy;
use thiserror::Error;

/// What keeps a capture from being written.
#[derive(Clone, Copy, Debug, PartialEq, Eq, Error)]
pub enum ExportWhy {
    /// The capture is malformed.
    #[error("{0}")]
    Capture(CaptureWhy),
    /// A time before 0, for which a record has no place.
    #[error("a time before 0")]
    BeforeZero,
    /// A frame of more than 262,130 bytes, which with its Ethernet header is longer than a record may be.
    #[error("a frame of more than 262130 bytes")]
    LongFrame,
}

impl ExportWhy {
    /// The name under which the reason is printed: its own, and that of what is wrong with the capture.
    pub fn name(self) -> &'static str
        ensures name { result.now ≡ name_of self }
        ensures short { length result.now ≤ 10 }
    {
        match self {
            ExportWhy::Capture(why) => why.name(),
            ExportWhy::BeforeZero => "BeforeZero",
            ExportWhy::LongFrame => "LongFrame",
        }
    }
}

/// What keeps a capture from being written, and where.
#[derive(Clone, Copy, Debug, PartialEq, Eq, Error)]
#[error("byte {place}: {why}")]
pub struct ExportRefusal {
    /// The byte of the capture, from 0, at which the record begins; 0 for a magic that is not there.
    pub place: usize,
    /// What is wrong there.
    pub why: ExportWhy,
}
