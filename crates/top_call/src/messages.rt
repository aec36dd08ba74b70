// The line that a run writes where it is not done.
ghost use Rattle.std.specs.Prelude.{◌≡◌, ◌≤◌, length, OnOk, OnErr};
ghost use Rattle.std.specs.Io.KnownBytes.{append_known};
ghost use Rattle.fh_base.specs.Causes.{HasSinkCause};
ghost use Rattle.fh_base.specs.Told.{WritesFront, WritesPart};
ghost use Rattle.top_call.specs.Statuses.{capture_line, failing_line, status_line, no_fit_line, pcap_line, plan_name, refusal_line, text_line, why_name};

use crate::status::{LineWhy, Status};
use capture_records::CaptureWhy;
use du_scheduler::PlanWhy;
use fh_base::{Line, Sink, SinkFault, write_all_to};
use pcap_frames::PcapRefusal;
use pictures::TextWhy;
use window_config::Failing;
use window_plan::NoFit;

/// Writes the status's line, nothing for `Done`.
pub fn write_message<E: Sink>(status: Status, err: &mut E) -> Result<(), SinkFault>
    ensures ok { OnOk result (E.written err.new ≡ append_known (E.written err.old) (status_line status)) }
    ensures front { WritesFront (E.written err.old) (E.written err.new) (status_line status) }
    ensures part { OnErr result (WritesPart (E.written err.old) (E.written err.new) (status_line status)) }
    ensures cause { HasSinkCause (E.faults err.old) (E.faults err.new) (E.refusals err.old) (E.refusals err.new) result }
{
    let line = line_of(status);
    write_all_to(err, line.as_slice())
}

/// The line of a status.
fn line_of(status: Status) -> Line
    ensures { result ≡ status_line status }
{
    match status {
        Status::Done => Line::new(),
        Status::BadWords => literal(b"fronthaul: bad words\n"),
        Status::BadDocument { line, why } => refusal_line(line, why),
        Status::BadCapture { place, why } => capture_line(place, why),
        Status::ReadFault => literal(b"fronthaul: read fault\n"),
        Status::WriteFault => literal(b"fronthaul: write fault\n"),
        Status::NoMemory => literal(b"fronthaul: no memory\n"),
        Status::TooLong => literal(b"fronthaul: input too long\n"),
        Status::CheckFails(failing) => failing_line(failing),
        Status::BadPcap(refusal) => pcap_line(refusal),
        Status::BadText { line, why } => text_line(line, why),
        Status::NoFit(refusal) => no_fit_line(refusal),
    }
}

/// A line that is the same at each status of its kind.
fn literal(text: &[u8]) -> Line
    requires { length text.now ≤ 512 }
    ensures { result ≡ text.now }
{
    let mut line = Line::new();
    line.text(text);
    line
}

/// The name of a reason of the plan: its own.
fn plan_name(why: PlanWhy) -> &'static str
    ensures name { result.now ≡ plan_name why }
    ensures short { length result.now ≤ 15 }
{
    match why {
        PlanWhy::UnknownEndpoint => "UnknownEndpoint",
        PlanWhy::Range => "Range",
        PlanWhy::Overlap => "Overlap",
        PlanWhy::TooManySections => "TooManySections",
        PlanWhy::SequenceDense => "SequenceDense",
    }
}

/// The name of a reason.
fn why_name(why: LineWhy) -> &'static str
    ensures name { result.now ≡ why_name why }
    ensures short { length result.now ≤ 15 }
{
    match why {
        LineWhy::Doc(why) => why.name(),
        LineWhy::Plan(why) => plan_name(why),
    }
}

/// Where a document is refused, and why.
fn refusal_line(line: usize, why: LineWhy) -> Line
    ensures { result ≡ refusal_line line why }
{
    let mut text = Line::new();
    text.text(b"fronthaul: line ");
    text.number(line as u64);
    text.text(b": ");
    text.text(why_name(why).as_bytes());
    text.text(b"\n");
    text
}

/// Where a capture is refused, and why.
fn capture_line(place: usize, why: CaptureWhy) -> Line
    ensures { result ≡ capture_line place why }
{
    let mut text = Line::new();
    text.text(b"fronthaul: capture at ");
    text.number(place as u64);
    text.text(b": ");
    text.text(why.name().as_bytes());
    text.text(b"\n");
    text
}

/// Where a pcap file is refused, and why.
fn pcap_line(refusal: PcapRefusal) -> Line
    ensures { result ≡ pcap_line refusal }
{
    let mut text = Line::new();
    text.text(b"fronthaul: pcap at ");
    text.number(refusal.place as u64);
    text.text(b": ");
    text.text(refusal.why.name().as_bytes());
    text.text(b"\n");
    text
}

/// Where the text of an explanation is refused, and why.
fn text_line(line: usize, why: TextWhy) -> Line
    ensures { result ≡ text_line line why }
{
    let mut text = Line::new();
    text.text(b"fronthaul: line ");
    text.number(line as u64);
    text.text(b": ");
    text.text(why.name().as_bytes());
    text.text(b"\n");
    text
}

/// The relation that fails, and its two sides in nanoseconds.
#[tactic(auto, unfolding(crate::specs::Statuses::failing_line))]
fn failing_line(failing: Failing) -> Line
    ensures { result ≡ failing_line failing }
{
    let mut text = Line::new();
    text.text(b"fronthaul: check fails ");
    text.text(failing.relation.name().as_bytes());
    text.spaced_signed(failing.left);
    text.spaced_signed(failing.right);
    text.text(b"\n");
    text
}

/// The window that does not fit, and both sides of what refuses it in nanoseconds.
#[tactic(auto, unfolding(crate::specs::Statuses::no_fit_line))]
fn no_fit_line(refusal: NoFit) -> Line
    ensures { result ≡ no_fit_line refusal }
{
    let mut text = Line::new();
    text.text(b"fronthaul: no fit ");
    text.text(refusal.window.name().as_bytes());
    text.spaced_signed(refusal.left);
    text.spaced_signed(refusal.right);
    text.text(b"\n");
    text
}
