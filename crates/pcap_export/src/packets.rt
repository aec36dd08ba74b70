// A frame as a record of a pcap file.
ghost use Rattle.std.specs.Prelude.{◌≡◌, ◌≤◌, ◌<◌, ◌^◌, ◌*◌, IfSome};
ghost use Rattle.pcap_export.specs.Packets.{ethernet_head, nanoseconds_of, record_head};

use air_source::Side;
use fh_base::{NANOSECOND, Ticks};

/// The head of a file of nanoseconds, highest byte first: the magic, version 2.4, records of at most 262,144 bytes, and Ethernet.
pub const HEAD: [u8; 24] = [
    0xa1, 0xb2, 0x3c, 0x4d, 0x00, 0x02, 0x00, 0x04, 0x00, 0x00, 0x00, 0x00, 0x00, 0x00, 0x00, 0x00,
    0x00, 0x04, 0x00, 0x00, 0x00, 0x00, 0x00, 0x01,
];

/// How many bytes of a packet are before its frame.
pub const ETHERNET: usize = 14;
/// The most bytes of a frame: those of a record less the Ethernet header.
pub const LONGEST: usize = 262_144 - ETHERNET;

/// The Ethernet header of a frame to the radio unit: its address, that of the distributed unit, and the EtherType of eCPRI.
const TO_RU: [u8; ETHERNET] = [2, 0, 0, 0, 0, 1, 2, 0, 0, 0, 0, 2, 0xae, 0xfe];

/// The same of a frame to the distributed unit.
const TO_DU: [u8; ETHERNET] = [2, 0, 0, 0, 0, 2, 2, 0, 0, 0, 0, 1, 0xae, 0xfe];

/// A time in whole nanoseconds, rounded down; none where it is before 0. Ticks of 63 bits are fewer than 2^32 s.
pub fn nanoseconds(at: Ticks) -> Option<u64>
    ensures value { result ≡ nanoseconds_of at.0 }
    ensures small { IfSome result (λ ns. ns < 2 ^ 32 * 10 ^ 9) }
{
    if at.0 < 0 {
        return None;
    }
    Some((at.0 / NANOSECOND as i64) as u64)
}

/// The Ethernet header of a frame to a unit.
pub fn ethernet_head(side: Side) -> [u8; ETHERNET]
    ensures { result ≡ ethernet_head side }
{
    match side {
        Side::Ru => TO_RU,
        Side::Du => TO_DU,
    }
}

/// What is before a packet of `kept` bytes that was seen at `ns` nanoseconds.
pub fn record_head(ns: u64, kept: u32) -> [u8; 16]
    requires { ns < 2 ^ 32 * 10 ^ 9 }
    ensures { result ≡ record_head ns kept }
{
    let s = ((ns / 1_000_000_000) as u32).to_be_bytes();
    let f = ((ns % 1_000_000_000) as u32).to_be_bytes();
    let k = kept.to_be_bytes();
    [
        s[0], s[1], s[2], s[3], f[0], f[1], f[2], f[3], k[0], k[1], k[2], k[3], k[0], k[1], k[2],
        k[3],
    ]
}
