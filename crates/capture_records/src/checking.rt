// The tests of a whole capture.
ghost use Rattle.std.specs.Prelude.{◌≡◌, ◌≤◌, List, Ok, length, IfOk};
ghost use Rattle.capture_records.specs.Reading.{size_checked, checked};
ghost use Rattle.capture_records.specs.Records.{Arrived, HaveRecords, capture_bytes};

use crate::layout::{HEAD, MAGIC};
use crate::reading::frame_size;
use crate::refusals::{CaptureRefusal, CaptureWhy};

/// How many bytes the record has that the bytes begin with, by the first test that fails.
fn record_size(bytes: &[u8]) -> Result<usize, CaptureWhy>
    ensures value { result ≡ size_checked bytes.now }
    ensures within { IfOk result (λ size. (13 ≤ size) × (size ≤ length bytes.now)) }
{
    if bytes.len() < HEAD {
        return Err(CaptureWhy::Cut);
    }
    if bytes[0] > 1 {
        return Err(CaptureWhy::Way);
    }
    let size = frame_size(bytes);
    if bytes.len() - HEAD < size {
        return Err(CaptureWhy::Cut);
    }
    Ok(HEAD + size)
}

/// Tests a whole capture.
///
/// # Errors
///
/// `Magic` at 0 where the first eight bytes are not [`MAGIC`]. Else the first record that is malformed, at its place: `Cut`
/// where fewer than the 13 bytes before its frame are left, then `Way` where its way is neither 0 nor 1, then `Cut` where
/// fewer bytes are left than its length says.
pub fn check(bytes: &[u8]) -> Result<(), CaptureRefusal>
    ensures value { result ≡ checked bytes.now }
    // what is written for any list of arrivals passes
    ensures written { (landed : List Arrived) → HaveRecords landed → bytes.now ≡ capture_bytes landed → result ≡ Ok tt }
{
    if !bytes.starts_with(&MAGIC) {
        return Err(CaptureRefusal {
            place: 0,
            why: CaptureWhy::Magic,
        });
    }
    let mut place = MAGIC.len();
    while place < bytes.len() {
        match record_size(&bytes[place..]) {
            Ok(size) => place += size,
            Err(why) => return Err(CaptureRefusal { place, why }),
        }
    }
    Ok(())
}
