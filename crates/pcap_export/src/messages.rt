// The line that a run writes where it is not done.
ghost use Rattle.std.specs.Prelude.{◌≡◌, ◌≤◌, length, OnOk};
ghost use Rattle.std.specs.Io.KnownBytes.{append_known};
ghost use Rattle.fh_base.specs.Causes.{HasSinkCause};
ghost use Rattle.fh_base.specs.Told.{WritesFront};
ghost use Rattle.pcap_export.specs.Statuses.{capture_line, line_of};

use crate::refusals::ExportRefusal;
use crate::status::Status;
use fh_base::{Line, Sink, SinkFault, write_all_to};

/// Writes the status's line, nothing for `Done`.
pub fn write_message<E: Sink>(status: Status, err: &mut E) -> Result<(), SinkFault>
    ensures ok { OnOk result (E.written err.new ≡ append_known (E.written err.old) (line_of status)) }
    ensures front { WritesFront (E.written err.old) (E.written err.new) (line_of status) }
    ensures cause { HasSinkCause (E.faults err.old) (E.faults err.new) (E.refusals err.old) (E.refusals err.new) result }
{
    let line = line_of(status);
    write_all_to(err, line.as_slice())
}

// The line of a status.
fn line_of(status: Status) -> Line
    ensures { result ≡ line_of status }
{
    match status {
        Status::Done => Line::new(),
        Status::BadWords => literal(b"capture_pcap: bad words\n"),
        Status::BadCapture(refusal) => capture_line(refusal),
        Status::ReadFault => literal(b"capture_pcap: read fault\n"),
        Status::WriteFault => literal(b"capture_pcap: write fault\n"),
        Status::NoMemory => literal(b"capture_pcap: no memory\n"),
        Status::TooLong => literal(b"capture_pcap: input too long\n"),
    }
}

// A line that is the same at each status of its kind.
fn literal(text: &[u8]) -> Line
    requires { length text.now ≤ 512 }
    ensures { result ≡ text.now }
{
    let mut line = Line::new();
    line.text(text);
    line
}

// Where a capture is refused, and why.
fn capture_line(refusal: ExportRefusal) -> Line
    ensures { result ≡ capture_line refusal }
{
    let mut text = Line::new();
    text.text(b"capture_pcap: capture at ");
    text.number(refusal.place as u64);
    text.text(b": ");
    text.text(refusal.why.name().as_bytes());
    text.text(b"\n");
    text
}
