// How a run ended.
ghost use Rattle.std.specs.Prelude.{◌≡◌};

use crate::refusals::ExportRefusal;

/// How a run ended.
#[derive(Clone, Copy, Debug, PartialEq, Eq)]
pub enum Status {
    /// The capture was read to its end, and the whole file written.
    Done,
    /// The words are neither `dl` nor `ul` nor none. Nothing was read or written.
    BadWords,
    /// The capture is refused. Nothing was written.
    BadCapture(ExportRefusal),
    /// The source failed. Nothing was written.
    ReadFault,
    /// The sink failed. A front part of the file was written.
    WriteFault,
    /// Memory was refused. A front part of the file was written.
    NoMemory,
    /// More bytes were received than the limit. Nothing was written.
    TooLong,
}

impl Status {
    ghost use Rattle.pcap_export.specs.Statuses.{code_of};

    /// What the process ends with.
    pub fn code(&self) -> u8
        ensures { result ≡ code_of self.now }
    {
        match self {
            Status::Done => 0,
            Status::BadWords => 2,
            Status::BadCapture(_) => 4,
            Status::ReadFault => 5,
            Status::WriteFault => 6,
            Status::NoMemory => 7,
            Status::TooLong => 8,
        }
    }
}
