// What a run answers.
ghost use Rattle.std.specs.Prelude.{◌≡◌};

use capture_records::CaptureWhy;
use du_scheduler::PlanWhy;
use fh_document::DocWhy;
use pcap_frames::PcapRefusal;
use pictures::TextWhy;
use thiserror::Error;
use window_config::Failing;
use window_plan::NoFit;

/// Why a line of the document is refused.
#[derive(Clone, Copy, Debug, PartialEq, Eq, Error)]
pub enum LineWhy {
    /// By the grammar.
    #[error("{0}")]
    Doc(DocWhy),
    /// As a line of the plan.
    #[error("{0}")]
    Plan(PlanWhy),
}

/// How a run ended.
#[derive(Clone, Copy, Debug, PartialEq, Eq)]
pub enum Status {
    /// What the command reads was read to its end, and the whole text written.
    Done,
    /// The words are no command. Nothing was read or written.
    BadWords,
    /// The document is refused at a line, counted from 1, by its grammar or as a line of its plan. Nothing was written.
    BadDocument { line: usize, why: LineWhy },
    /// A capture is refused at the byte where its first malformed record begins. Nothing was written.
    BadCapture { place: usize, why: CaptureWhy },
    /// The source failed. Nothing was written.
    ReadFault,
    /// The sink failed. A front part of the text was written.
    WriteFault,
    /// Memory was refused. A front part of the text was written.
    NoMemory,
    /// More bytes were received than the limit. Nothing was written.
    TooLong,
    /// A relation of the document's windows fails, the first that does. The whole text was written.
    CheckFails(Failing),
    /// A pcap file is refused. Nothing was written.
    BadPcap(PcapRefusal),
    /// The text of an explanation is refused at a line, counted from 1. Nothing was written.
    BadText { line: usize, why: TextWhy },
    /// No windows fit the document's network, the first that do not. The whole text was written.
    NoFit(NoFit),
}

impl Status {
    ghost use Rattle.top_call.specs.Statuses.{code_of};

    /// What the process ends with.
    pub fn code(&self) -> u8
        ensures { result ≡ code_of self.now }
    {
        match self {
            Status::Done => 0,
            Status::BadWords => 2,
            Status::BadDocument { .. } => 3,
            Status::BadCapture { .. } => 4,
            Status::ReadFault => 5,
            Status::WriteFault => 6,
            Status::NoMemory => 7,
            Status::TooLong => 8,
            Status::CheckFails(_) => 9,
            Status::BadPcap(_) => 10,
            Status::NoFit(_) => 11,
            Status::BadText { .. } => 12,
        }
    }
}
