// `pcap` and `pcap-capture`: the eCPRI frames of a pcap file.
ghost use Rattle.std.specs.Prelude.{◌≡◌};
ghost use Rattle.top_call.specs.Answers.{frames_captured, frames_injected};
ghost use Rattle.top_call.specs.Run.{Performs};

use crate::endings::{ending_of, pcap_status};
use crate::status::Status;
use fh_base::Sink;
use pcap_frames::{Whose, check};
use pcap_lines::{capture_bytes, inject_text};
use std::alloc::Global;

/// Writes the frames of a pcap file that are wanted as lines of a document.
pub(crate) fn inject_frames<K: Sink>(
    alloc: Global,
    whose: Whose,
    start: u64,
    bytes: &[u8],
    out: &mut K,
) -> Status
    ensures { Performs (frames_injected whose start bytes.now) (K.written out.old) (K.written out.new) (K.faults out.old) (K.faults out.new) result }
{
    match check(alloc, bytes, whose, start) {
        Ok(head) => ending_of(inject_text(bytes, &head, whose, start, out), Status::Done),
        Err(fault) => pcap_status(fault),
    }
}

/// Writes these frames as a capture.
pub(crate) fn capture_frames<K: Sink>(
    alloc: Global,
    whose: Whose,
    start: u64,
    bytes: &[u8],
    out: &mut K,
) -> Status
    ensures { Performs (frames_captured whose start bytes.now) (K.written out.old) (K.written out.new) (K.faults out.old) (K.faults out.new) result }
{
    match check(alloc, bytes, whose, start) {
        Ok(head) => ending_of(capture_bytes(bytes, &head, whose, start, out), Status::Done),
        Err(fault) => pcap_status(fault),
    }
}
