// The bytes before a frame.
ghost use Rattle.std.specs.Prelude.{◌≡◌};
ghost use Rattle.capture_records.specs.Records.{way_byte, head_bytes};

use air_source::Side;
use fh_base::Ticks;

/// The byte of a way.
fn way(side: Side) -> u8
    ensures { result ≡ way_byte side }
{
    match side {
        Side::Ru => 0,
        Side::Du => 1,
    }
}

/// The 13 bytes of a record before its frame of `len` bytes, which arrived at the unit `side` at the time `at`.
pub fn record_head(side: Side, at: Ticks, len: u32) -> [u8; 13]
    ensures { result ≡ head_bytes side at.0 len }
{
    let t = at.0.to_be_bytes();
    let l = len.to_be_bytes();
    [
        way(side),
        t[0],
        t[1],
        t[2],
        t[3],
        t[4],
        t[5],
        t[6],
        t[7],
        l[0],
        l[1],
        l[2],
        l[3],
    ]
}
