// The file.
ghost use Rattle.std.specs.Prelude.{◌≡◌, ◌≤◌, ◌++◌, Ok, None, length, OnOk, OnErr};
ghost use Rattle.std.specs.Io.KnownBytes.{append_known};
ghost use Rattle.fh_base.specs.Causes.{HasSinkCause};
ghost use Rattle.fh_base.specs.Told.{WritesFront, WritesPart};
ghost use Rattle.fh_base.specs.Owed.{Carried};
ghost use Rattle.capture_records.specs.Reading.{checked as capture_checked, records_of};
ghost use Rattle.capture_records.specs.Records.{arrived_of};
ghost use Rattle.pcap_frames.specs.declared.values.Whose.{Whose};
ghost use Rattle.pcap_export.specs.Checked.{checked, fault_of, placed_from};
ghost use Rattle.pcap_export.specs.Packets.{packet_bytes, packets_bytes, pcap_bytes, wanted, wanted_bytes};
ghost use Rattle.pcap_export.specs.ReadBack.{AreUsual, IsReading, IsReadBack};

use crate::packets::{ETHERNET, HEAD, ethernet_head, nanoseconds, record_head};
use crate::ways::{Ways, is_wanted};
use capture_records::{Record, records};
use fh_base::{OwedBytes, Sink, SinkFault};

// Tells the packet of a record.
fn tell_packet<K: Sink>(
    arrival: &Record<'_>,
    owed: &mut OwedBytes,
    out: &mut K,
) -> Result<(), SinkFault>
    requires { length arrival.now.frame.now ≤ 262130 }
    ensures carried { OnOk result (Carried (K.written out.old) owed.old (packet_bytes (arrived_of arrival.now)) (K.written out.new) owed.new) }
    ensures part { OnErr result (WritesPart (K.written out.old) (K.written out.new) (owed.old ++ packet_bytes (arrived_of arrival.now))) }
    ensures cause { HasSinkCause (K.faults out.old) (K.faults out.new) (K.refusals out.old) (K.refusals out.new) result }
{
    let ns = nanoseconds(arrival.at).unwrap_or(0);
    let head = record_head(ns, (ETHERNET + arrival.frame.len()) as u32);
    owed.tell(&head, out)?;
    owed.tell(&ethernet_head(arrival.side), out)?;
    owed.tell(arrival.frame, out)
}

// Tells the packet of a record that is to be written, and else nothing.
fn tell_wanted<K: Sink>(
    arrival: &Record<'_>,
    ways: Ways,
    owed: &mut OwedBytes,
    out: &mut K,
) -> Result<(), SinkFault>
    requires { fault_of ways (arrived_of arrival.now) ≡ None }
    ensures carried { OnOk result (Carried (K.written out.old) owed.old (wanted_bytes ways (arrived_of arrival.now)) (K.written out.new) owed.new) }
    ensures part { OnErr result (WritesPart (K.written out.old) (K.written out.new) (owed.old ++ wanted_bytes ways (arrived_of arrival.now))) }
    ensures cause { HasSinkCause (K.faults out.old) (K.faults out.new) (K.refusals out.old) (K.refusals out.new) result }
{
    if is_wanted(ways, arrival.side) {
        tell_packet(arrival, owed, out)
    } else {
        Ok(())
    }
}

// Tells the packets of all records that are to be written.
fn tell_packets<K: Sink>(
    bytes: &[u8],
    ways: Ways,
    owed: &mut OwedBytes,
    out: &mut K,
) -> Result<(), SinkFault>
    requires sound { capture_checked bytes.now ≡ Ok tt }
    requires placed { placed_from ways 8 (records_of bytes.now) ≡ Ok tt }
    ensures carried { OnOk result (Carried (K.written out.old) owed.old (packets_bytes ways (records_of bytes.now)) (K.written out.new) owed.new) }
    ensures part { OnErr result (WritesPart (K.written out.old) (K.written out.new) (owed.old ++ packets_bytes ways (records_of bytes.now))) }
    ensures cause { HasSinkCause (K.faults out.old) (K.faults out.new) (K.refusals out.old) (K.refusals out.new) result }
{
    for record in records(bytes) {
        tell_wanted(&record, ways, owed, out)?;
    }
    Ok(())
}

/// Writes the frames of these ways of a capture that [`check`](crate::check) accepted for them: a classic pcap file of nanoseconds,
/// highest byte first, with an Ethernet frame for each, in the capture's order. Each unit has an address of its own, and a time is
/// rounded down to whole nanoseconds.
///
/// # Errors
///
/// `Failed` exactly where the sink's count of faults rose, and `NoMemory` exactly where its count of refusals rose. A front part of the
/// file was written and not all.
pub fn put_pcap<K: Sink>(bytes: &[u8], ways: Ways, out: &mut K) -> Result<(), SinkFault>
    requires { checked ways bytes.now ≡ Ok tt }
    ensures ok { OnOk result (K.written out.new ≡ append_known (K.written out.old) (pcap_bytes ways (records_of bytes.now))) }
    ensures front { WritesFront (K.written out.old) (K.written out.new) (pcap_bytes ways (records_of bytes.now)) }
    ensures part { OnErr result (WritesPart (K.written out.old) (K.written out.new) (pcap_bytes ways (records_of bytes.now))) }
    ensures cause { HasSinkCause (K.faults out.old) (K.faults out.new) (K.refusals out.old) (K.refusals out.new) result }
    // frames whose times lie from 0 to 1,000 s and that have at most 9,216 bytes are read back from the file, each at its nanosecond: all as
    // frames to one unit, or by the radio unit's address each as one to its own
    ensures read { AreUsual (wanted ways (records_of bytes.now)) → (whose : Whose) → IsReading whose → IsReadBack whose (pcap_bytes ways (records_of bytes.now)) (wanted ways (records_of bytes.now)) }
{
    let mut owed = OwedBytes::new();
    owed.tell(&HEAD, out)?;
    tell_packets(bytes, ways, &mut owed, out)?;
    owed.push_out(out)
}
