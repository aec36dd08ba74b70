// The frames as a capture.
ghost use Rattle.std.specs.Prelude.{◌≡◌, ◌≤◌, ◌++◌, Ok, map, pos, length, OnOk, OnErr, ◌≤ℤ◌, ◌*ℤ◌};
ghost use Rattle.std.specs.Io.KnownBytes.{append_known};
ghost use Rattle.fh_base.specs.Causes.{HasSinkCause};
ghost use Rattle.fh_base.specs.Told.{WritesFront, WritesPart};
ghost use Rattle.fh_base.specs.Owed.{Carried};
ghost use Rattle.capture_records.specs.Records.{head_bytes, record_bytes, records_bytes, capture_bytes, HaveRecords};
ghost use Rattle.pcap_frames.specs.Checked.{checked};
ghost use Rattle.pcap_frames.specs.Frames.{timed_of, frames_of, IsShown};
ghost use Rattle.pcap_frames.specs.Heads.{IsHead};
ghost use Rattle.pcap_lines.specs.Texts.{arrived_as};
ghost use Rattle.fh_base.specs.declared.nanoseconds.TheConstants.{NANOSECOND};

use capture_records::{MAGIC, record_head};
use fh_base::{OwedBytes, Sink, SinkFault, of_ns};
use pcap_frames::{PcapFrame, PcapHead, Whose, frames};

// What is before a frame in its record.
fn head_of(f: &PcapFrame<'_>) -> [u8; 13]
    requires { IsShown (timed_of f.now) }
    ensures { result ≡ head_bytes f.now.side (f.now.at *ℤ pos NANOSECOND) (length f.now.frame.now) }
{
    record_head(f.side, of_ns(f.at), f.frame.len() as u32)
}

// Tells the record of a frame.
fn tell_record<K: Sink>(
    f: &PcapFrame<'_>,
    owed: &mut OwedBytes,
    out: &mut K,
) -> Result<(), SinkFault>
    requires { IsShown (timed_of f.now) }
    ensures carried { OnOk result (Carried (K.written out.old) owed.old (record_bytes (arrived_as (timed_of f.now))) (K.written out.new) owed.new) }
    ensures part { OnErr result (WritesPart (K.written out.old) (K.written out.new) (owed.old ++ record_bytes (arrived_as (timed_of f.now)))) }
    ensures cause { HasSinkCause (K.faults out.old) (K.faults out.new) (K.refusals out.old) (K.refusals out.new) result }
{
    let head = head_of(f);
    owed.tell(&head, out)?;
    owed.tell(f.frame, out)
}

// Tells the records of all frames.
fn tell_records<K: Sink>(
    bytes: &[u8],
    head: &PcapHead,
    whose: Whose,
    start: u64,
    owed: &mut OwedBytes,
    out: &mut K,
) -> Result<(), SinkFault>
    requires passed { checked whose bytes.now start ≡ Ok tt }
    requires head { IsHead whose bytes.now head.now }
    ensures carried { OnOk result (Carried (K.written out.old) owed.old (records_bytes (map arrived_as (frames_of whose bytes.now start))) (K.written out.new) owed.new) }
    ensures part { OnErr result (WritesPart (K.written out.old) (K.written out.new) (owed.old ++ records_bytes (map arrived_as (frames_of whose bytes.now start)))) }
    ensures cause { HasSinkCause (K.faults out.old) (K.faults out.new) (K.refusals out.old) (K.refusals out.new) result }
{
    for f in frames(bytes, head, whose, start) {
        tell_record(&f, owed, out)?;
    }
    Ok(())
}

/// Writes a capture of the eCPRI frames that are wanted of a file for which `check` of `pcap_frames` gave this head with this start, in
/// the file's order, as they arrived at the units that they go to.
///
/// # Errors
///
/// `Failed` exactly where the sink's count of faults rose, and `NoMemory` exactly where its count of refusals rose. A front part of the
/// capture was written and not all.
pub fn capture_bytes<K: Sink>(
    bytes: &[u8],
    head: &PcapHead,
    whose: Whose,
    start: u64,
    out: &mut K,
) -> Result<(), SinkFault>
    requires passed { checked whose bytes.now start ≡ Ok tt }
    requires head { IsHead whose bytes.now head.now }
    ensures ok { OnOk result (K.written out.new ≡ append_known (K.written out.old) (capture_bytes (map arrived_as (frames_of whose bytes.now start)))) }
    ensures front { WritesFront (K.written out.old) (K.written out.new) (capture_bytes (map arrived_as (frames_of whose bytes.now start))) }
    ensures part { OnErr result (WritesPart (K.written out.old) (K.written out.new) (capture_bytes (map arrived_as (frames_of whose bytes.now start)))) }
    ensures cause { HasSinkCause (K.faults out.old) (K.faults out.new) (K.refusals out.old) (K.refusals out.new) result }
{
    let mut owed = OwedBytes::new();
    owed.tell(&MAGIC, out)?;
    tell_records(bytes, head, whose, start, &mut owed, out)?;
    owed.push_out(out)
}
