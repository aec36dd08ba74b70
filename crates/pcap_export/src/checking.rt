// The tests of a capture that is to be written.
ghost use Rattle.std.specs.Prelude.{◌≡◌, Ok};
ghost use Rattle.capture_records.specs.Reading.{checked as capture_checked, records_of};
ghost use Rattle.capture_records.specs.Records.{arrived_of};
ghost use Rattle.pcap_export.specs.Checked.{checked, fault_at, fault_of, placed_from};

use crate::packets::{LONGEST, nanoseconds};
use crate::refusals::{ExportRefusal, ExportWhy};
use crate::ways::{Ways, is_wanted};
use capture_records::{MAGIC, Record, check as check_capture, records};

/// How many bytes of a capture's record are before its frame.
const RECORD: usize = 13;

// The fault of a frame that is to be written, with its time where that has a place.
fn fault_at(ns: Option<u64>, len: usize) -> Option<ExportWhy>
    ensures { result ≡ fault_at ns len }
{
    if ns.is_none() {
        Some(ExportWhy::BeforeZero)
    } else if len > LONGEST {
        Some(ExportWhy::LongFrame)
    } else {
        None
    }
}

// The fault of a record; one that is not written has none.
fn fault(arrival: &Record<'_>, ways: Ways) -> Option<ExportWhy>
    ensures { result ≡ fault_of ways (arrived_of arrival.now) }
{
    if is_wanted(ways, arrival.side) {
        fault_at(nanoseconds(arrival.at), arrival.frame.len())
    } else {
        None
    }
}

// Tests the frames of a capture that is not malformed.
fn check_frames(bytes: &[u8], ways: Ways) -> Result<(), ExportRefusal>
    requires { capture_checked bytes.now ≡ Ok tt }
    ensures { result ≡ placed_from ways 8 (records_of bytes.now) }
{
    let mut place = MAGIC.len();
    for record in records(bytes) {
        if let Some(why) = fault(&record, ways) {
            return Err(ExportRefusal { place, why });
        }
        place += RECORD + record.frame.len();
    }
    Ok(())
}

/// Tests a capture of which the frames of these ways are to be written.
///
/// # Errors
///
/// `Capture` with the reason and the place of `capture_records::check` where that refuses the capture. Else the first of these
/// frames that has no place in a pcap file, at its record: `BeforeZero` where its time is before 0, then `LongFrame`
/// where it has more than 262,130 bytes.
pub fn check(bytes: &[u8], ways: Ways) -> Result<(), ExportRefusal>
    ensures { result ≡ checked ways bytes.now }
{
    match check_capture(bytes) {
        Ok(()) => check_frames(bytes, ways),
        Err(refusal) => Err(ExportRefusal {
            place: refusal.place,
            why: ExportWhy::Capture(refusal.why),
        }),
    }
}
