// The head of a pcap file, and its numbers.
ghost use Rattle.std.specs.Prelude.{◌≡◌, ◌≤◌, ◌<◌, ◌^◌, ◌+◌, ◌*◌, length, IfOk};
ghost use Rattle.pcap_frames.specs.Files.{word_of, format_of, head_of};

use crate::refusals::{PcapRefusal, PcapWhy};
use crate::values::Format;
use byteorder::{BigEndian, ByteOrder, LittleEndian};

/// How many bytes are before the first record.
pub const HEAD: usize = 24;
/// Where the link type is.
const LINK_TYPE: usize = 20;
/// The link type of Ethernet.
const ETHERNET: u32 = 1;

/// The magic of a file of microseconds, and of one of nanoseconds.
const MICROS: [u8; 4] = [0xa1, 0xb2, 0xc3, 0xd4];

const NANOS: [u8; 4] = [0xa1, 0xb2, 0x3c, 0x4d];
/// The same, lowest byte first.
const LITTLE_MICROS: [u8; 4] = [0xd4, 0xc3, 0xb2, 0xa1];

const LITTLE_NANOS: [u8; 4] = [0x4d, 0x3c, 0xb2, 0xa1];

/// The number in the first four bytes.
pub fn word(bytes: &[u8], little: bool) -> u32
    requires { 4 ≤ length bytes.now }
    ensures { result ≡ word_of little bytes.now }
{
    if little {
        LittleEndian::read_u32(bytes)
    } else {
        BigEndian::read_u32(bytes)
    }
}

// What the magic tells.
fn format(bytes: &[u8]) -> Option<Format>
    ensures { result ≡ format_of bytes.now }
{
    if bytes.starts_with(&MICROS) {
        Some(Format {
            little: false,
            nanos: false,
        })
    } else if bytes.starts_with(&NANOS) {
        Some(Format {
            little: false,
            nanos: true,
        })
    } else if bytes.starts_with(&LITTLE_MICROS) {
        Some(Format {
            little: true,
            nanos: false,
        })
    } else if bytes.starts_with(&LITTLE_NANOS) {
        Some(Format {
            little: true,
            nanos: true,
        })
    } else {
        None
    }
}

/// Tests the head of a file.
pub fn head(bytes: &[u8]) -> Result<Format, PcapRefusal>
    ensures value { result ≡ head_of bytes.now }
    ensures long { IfOk result (λ format. 24 ≤ length bytes.now) }
{
    let Some(format) = format(bytes) else {
        return Err(PcapRefusal {
            place: 0,
            why: PcapWhy::Magic,
        });
    };
    if bytes.len() < HEAD {
        return Err(PcapRefusal {
            place: 0,
            why: PcapWhy::Cut,
        });
    }
    if word(&bytes[LINK_TYPE..], format.little) % 65_536 == ETHERNET {
        Ok(format)
    } else {
        Err(PcapRefusal {
            place: LINK_TYPE,
            why: PcapWhy::LinkType,
        })
    }
}
