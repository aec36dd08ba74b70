// How a run ends, by what its last step answered.
ghost use Rattle.std.specs.Prelude.{◌≡◌, slice_index};
ghost use Rattle.top_call.specs.Endings.{drawn_status, ending_of, pcap_status, share_status, text_status, source_status, unplanned_status, unread_status};

use crate::status::{LineWhy, Status};
use document_texts::ShareFault;
use du_scheduler::PlanRefusal;
use fh_base::{List, ReadAllFault, SinkFault};
use fh_document::{DocFault, Document};
use fronthaul_replay::TextFault;
use pcap_frames::PcapFault;
use pictures::DrawFault;

/// How a run ends whose whole text was to be written, and which then ends with `status`.
pub(crate) fn ending_of(written: Result<(), SinkFault>, status: Status) -> Status
    ensures { result ≡ ending_of written status }
{
    match written {
        Ok(()) => status,
        Err(SinkFault::Failed) => Status::WriteFault,
        Err(SinkFault::NoMemory) => Status::NoMemory,
    }
}

/// How a run ends that was to write what becomes of a document's events.
pub(crate) fn text_status(written: Result<(), TextFault>) -> Status
    ensures { result ≡ text_status written }
{
    match written {
        Ok(()) => Status::Done,
        Err(TextFault::WriteFault) => Status::WriteFault,
        Err(TextFault::NoMemory) => Status::NoMemory,
    }
}

/// How a run ends that was to write what the units of a shared cell do.
pub(crate) fn share_status(written: Result<(), ShareFault>) -> Status
    ensures { result ≡ share_status written }
{
    match written {
        Ok(()) => Status::Done,
        Err(ShareFault::WriteFault) => Status::WriteFault,
        Err(ShareFault::NoMemory) => Status::NoMemory,
    }
}

/// What a document that was not read is answered.
pub(crate) fn unread_status(fault: DocFault) -> Status
    ensures { result ≡ unread_status fault }
{
    match fault {
        DocFault::At { line, why } => Status::BadDocument {
            line,
            why: LineWhy::Doc(why),
        },
        DocFault::NoMemory => Status::NoMemory,
    }
}

/// The number in the document of the line with this place in its plan.
fn line_number(numbers: &List<usize>, index: usize) -> usize
    ensures { result ≡ slice_index numbers.now index }
{
    match numbers.get(index) {
        Some(number) => *number,
        None => 0,
    }
}

/// What a document is answered whose plan was not accepted.
pub(crate) fn unplanned_status(document: &Document, refusal: PlanRefusal) -> Status
    ensures { result ≡ unplanned_status document.now refusal }
{
    match refusal {
        PlanRefusal::At { index, why } => Status::BadDocument {
            line: line_number(&document.plan_lines, index),
            why: LineWhy::Plan(why),
        },
        PlanRefusal::NoMemory => Status::NoMemory,
    }
}

/// How a run ends that was to draw a picture.
pub(crate) fn drawn_status(drawn: Result<(), DrawFault>) -> Status
    ensures { result ≡ drawn_status drawn }
{
    match drawn {
        Ok(()) => Status::Done,
        Err(DrawFault::Refused { line, why }) => Status::BadText { line, why },
        Err(DrawFault::WriteFault) => Status::WriteFault,
        Err(DrawFault::NoMemory) => Status::NoMemory,
    }
}

/// What a pcap file is answered that was not accepted.
pub(crate) fn pcap_status(fault: PcapFault) -> Status
    ensures { result ≡ pcap_status fault }
{
    match fault {
        PcapFault::Refused(refusal) => Status::BadPcap(refusal),
        PcapFault::NoMemory => Status::NoMemory,
    }
}

/// What an input is answered that was not read to its end.
pub(crate) fn source_status(fault: ReadAllFault) -> Status
    ensures { result ≡ source_status fault }
{
    match fault {
        ReadAllFault::ReadFault => Status::ReadFault,
        ReadAllFault::TooLong => Status::TooLong,
        ReadAllFault::NoMemory => Status::NoMemory,
    }
}
