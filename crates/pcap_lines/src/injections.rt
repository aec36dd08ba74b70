// The frames as lines of a document.
ghost use Rattle.std.specs.Prelude.{◌≡◌, ◌++◌, Ok, codes, map, OnOk, OnErr};
ghost use Rattle.std.specs.Io.KnownBytes.{append_known};
ghost use Rattle.fh_base.specs.Causes.{HasSinkCause};
ghost use Rattle.fh_base.specs.Told.{WritesFront, WritesPart};
ghost use Rattle.fh_base.specs.Owed.{Carried};
ghost use Rattle.fh_document.specs.Document.{document_of};
ghost use Rattle.fh_document.specs.WrittenLines.{document_with};
ghost use Rattle.pcap_frames.specs.Checked.{checked};
ghost use Rattle.pcap_frames.specs.Frames.{timed_of, frames_of};
ghost use Rattle.pcap_frames.specs.Heads.{IsHead};
ghost use Rattle.pcap_lines.specs.Texts.{line_text, injection_of, lines_of};

use crate::pieces::TEXT;
use crate::words::{opening, tell_frame};
use fh_base::{Line, OwedBytes, Sink, SinkFault};
use pcap_frames::{PcapFrame, PcapHead, Whose, frames};

// Tells the line of a frame, by a text that its digits are put into.
fn tell_line<K: Sink>(
    f: &PcapFrame<'_>,
    text: &mut [u8; TEXT],
    owed: &mut OwedBytes,
    out: &mut K,
) -> Result<(), SinkFault>
    ensures carried { OnOk result (Carried (K.written out.old) owed.old (line_text (timed_of f.now)) (K.written out.new) owed.new) }
    ensures part { OnErr result (WritesPart (K.written out.old) (K.written out.new) (owed.old ++ line_text (timed_of f.now))) }
    ensures cause { HasSinkCause (K.faults out.old) (K.faults out.new) (K.refusals out.old) (K.refusals out.new) result }
{
    let mut line = Line::new();
    opening(&mut line, f);
    owed.tell(line.as_slice(), out)?;
    tell_frame(f.frame, text, owed, out)
}

// Tells the lines of all frames.
fn tell_lines<K: Sink>(
    bytes: &[u8],
    head: &PcapHead,
    whose: Whose,
    start: u64,
    owed: &mut OwedBytes,
    out: &mut K,
) -> Result<(), SinkFault>
    requires passed { checked whose bytes.now start ≡ Ok tt }
    requires head { IsHead whose bytes.now head.now }
    ensures carried { OnOk result (Carried (K.written out.old) owed.old (lines_of (frames_of whose bytes.now start)) (K.written out.new) owed.new) }
    ensures part { OnErr result (WritesPart (K.written out.old) (K.written out.new) (owed.old ++ lines_of (frames_of whose bytes.now start))) }
    ensures cause { HasSinkCause (K.faults out.old) (K.faults out.new) (K.refusals out.old) (K.refusals out.new) result }
{
    let mut text = [0; TEXT];
    for f in frames(bytes, head, whose, start) {
        tell_line(&f, &mut text, owed, out)?;
    }
    Ok(())
}

/// Writes a line `inject WAY NS HEX` for each eCPRI frame that is wanted of a file for which `check` of `pcap_frames` gave this head
/// with this start, in the file's order. WAY is `dl` of a frame to the radio unit, and `ul` of one to the distributed unit. NS is in nanoseconds, and HEX two lower-case digits for each byte, or `-` for none.
///
/// # Errors
///
/// `Failed` exactly where the sink's count of faults rose, and `NoMemory` exactly where its count of refusals rose. A front part of the
/// text was written and not all.
pub fn inject_text<K: Sink>(
    bytes: &[u8],
    head: &PcapHead,
    whose: Whose,
    start: u64,
    out: &mut K,
) -> Result<(), SinkFault>
    requires passed { checked whose bytes.now start ≡ Ok tt }
    requires head { IsHead whose bytes.now head.now }
    ensures ok { OnOk result (K.written out.new ≡ append_known (K.written out.old) (lines_of (frames_of whose bytes.now start))) }
    ensures front { WritesFront (K.written out.old) (K.written out.new) (lines_of (frames_of whose bytes.now start)) }
    ensures part { OnErr result (WritesPart (K.written out.old) (K.written out.new) (lines_of (frames_of whose bytes.now start))) }
    // after line 1 of a document this text is read as exactly these frames, in their order
    ensures read { document_of (codes "fronthaul 1\n" ++ lines_of (frames_of whose bytes.now start)) ≡ Ok (document_with (map injection_of (frames_of whose bytes.now start))) }
    ensures cause { HasSinkCause (K.faults out.old) (K.faults out.new) (K.refusals out.old) (K.refusals out.new) result }
{
    let mut owed = OwedBytes::new();
    tell_lines(bytes, head, whose, start, &mut owed, out)?;
    owed.push_out(out)
}
