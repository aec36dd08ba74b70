// One record, read.
ghost use Rattle.std.specs.Prelude.{◌≡◌, ◌+◌, ◌≤◌, ◌<◌, ◌^◌, ◌∷◌, length, drop, IsTrue};
ghost use Rattle.capture_records.specs.Reading.{side_at, ticks_at, length_at, all_pass, records_from};
ghost use Rattle.capture_records.specs.Records.{arrived_of};

use crate::layout::HEAD;
use crate::values::Record;
use air_source::Side;
use fh_base::Ticks;

/// The unit that the first byte of a record names.
fn side_of(bytes: &[u8]) -> Side
    requires { 13 ≤ length bytes.now }
    ensures { result ≡ side_at bytes.now }
{
    if bytes[0] == 0 { Side::Ru } else { Side::Du }
}

/// The time of the record that the bytes begin with.
fn time_of(bytes: &[u8]) -> Ticks
    requires { 13 ≤ length bytes.now }
    ensures { result.0 ≡ ticks_at bytes.now }
{
    Ticks(i64::from_be_bytes([
        bytes[1], bytes[2], bytes[3], bytes[4], bytes[5], bytes[6], bytes[7], bytes[8],
    ]))
}

/// The length of the frame in the record that the bytes begin with.
pub fn frame_size(bytes: &[u8]) -> usize
    requires { 13 ≤ length bytes.now }
    ensures size { result ≡ length_at bytes.now }
    ensures small { result < 2 ^ 32 }
{
    u32::from_be_bytes([bytes[9], bytes[10], bytes[11], bytes[12]]) as usize
}

/// The record that bytes of records begin with.
pub fn record_at(bytes: &[u8]) -> Record<'_>
    requires some { 0 < length bytes.now }
    requires passes { IsTrue (all_pass bytes.now) }
    ensures first { records_from 0 bytes.now ≡ arrived_of result ∷ records_from 0 (drop (13 + length result.frame.now) bytes.now) }
    ensures passes { IsTrue (all_pass (drop (13 + length result.frame.now) bytes.now)) }
    ensures room { 13 + length result.frame.now ≤ length bytes.now }
{
    let size = frame_size(bytes);
    Record {
        side: side_of(bytes),
        at: time_of(bytes),
        frame: &bytes[HEAD..HEAD + size],
    }
}
