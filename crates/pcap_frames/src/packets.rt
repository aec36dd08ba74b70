// One record of a classic file.
ghost use Rattle.std.specs.Prelude.{◌≡◌, ◌≤◌, ◌<◌, ◌^◌, ◌+◌, ◌-◌, ◌*◌, length, IfSome};
ghost use Rattle.pcap_frames.specs.Files.{record_of, time_of};
ghost use Rattle.pcap_frames.specs.Packets.{record_as, record_or_none};

use crate::files::word;
use crate::values::Record;

/// How many bytes of a record are before its packet.
pub const RECORD: usize = 16;

/// The record that the bytes begin with, where they hold it whole.
pub fn record_in(bytes: &[u8], little: bool) -> Option<Record<'_>>
    ensures value { record_or_none result ≡ record_of little bytes.now }
    ensures within { IfSome result (λ r. 16 + length r.bytes.now ≤ length bytes.now) }
{
    if bytes.len() < RECORD {
        return None;
    }
    let kept = word(&bytes[8..], little) as usize;
    if bytes.len() - RECORD < kept {
        return None;
    }
    Some(Record {
        seconds: word(bytes, little),
        fraction: word(&bytes[4..], little),
        bytes: &bytes[RECORD..RECORD + kept],
    })
}

/// When a packet was seen, in nanoseconds.
pub fn time(r: Record<'_>, nanos: bool) -> u64
    ensures time { result ≡ time_of nanos (record_as r.entry) }
    ensures small { result < 2 ^ 63 }
{
    let fraction = r.fraction as u64;
    r.seconds as u64 * 1_000_000_000 + if nanos { fraction } else { fraction * 1_000 }
}
