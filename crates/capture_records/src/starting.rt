// The records of a capture, from its first.
ghost use Rattle.std.specs.Prelude.{◌≡◌, ◌*◌, ◌≤◌, List, Ok, length};
ghost use Rattle.capture_records.specs.Left.{left_of};
ghost use Rattle.capture_records.specs.Reading.{checked, records_of};
ghost use Rattle.capture_records.specs.Records.{Arrived, HaveRecords, capture_bytes};

use crate::iterating::Records;
use crate::layout::MAGIC;

/// The records of a capture that passed [`check`](crate::check).
pub fn records(bytes: &[u8]) -> Records<'_>
    requires { checked bytes.now ≡ Ok tt }
    ensures records { left_of result ≡ records_of bytes.now }
    // what is written for any list of arrivals is read back as that list
    ensures written { (landed : List Arrived) → HaveRecords landed → bytes.now ≡ capture_bytes landed → left_of result ≡ landed }
    // each record has 13 bytes before its frame
    ensures few { length (left_of result) * 13 ≤ length bytes.now }
{
    Records {
        rest: &bytes[MAGIC.len()..],
    }
}
