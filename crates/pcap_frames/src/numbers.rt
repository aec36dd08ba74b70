// Numbers in the order of bytes of a section.
ghost use Rattle.std.specs.Prelude.{◌≡◌, ◌≤◌, ◌<◌, ◌^◌, ◌+◌, length};
ghost use Rattle.pcap_frames.specs.Numbers.{number, padded};

use byteorder::{BigEndian, ByteOrder, LittleEndian};

/// The number in the first two bytes.
pub(crate) fn short(bytes: &[u8], little: bool) -> u16
    requires { 2 ≤ length bytes.now }
    ensures { result ≡ number little 2 bytes.now }
{
    if little {
        LittleEndian::read_u16(bytes)
    } else {
        BigEndian::read_u16(bytes)
    }
}

/// The number in the first four bytes.
pub(crate) fn word(bytes: &[u8], little: bool) -> u32
    requires { 4 ≤ length bytes.now }
    ensures { result ≡ number little 4 bytes.now }
{
    if little {
        LittleEndian::read_u32(bytes)
    } else {
        BigEndian::read_u32(bytes)
    }
}

/// The number in the first eight bytes.
pub(crate) fn long(bytes: &[u8], little: bool) -> u64
    requires { 8 ≤ length bytes.now }
    ensures { result ≡ number little 8 bytes.now }
{
    if little {
        LittleEndian::read_u64(bytes)
    } else {
        BigEndian::read_u64(bytes)
    }
}

/// How many bytes some have with their padding, to a multiple of 4.
pub(crate) fn padded(count: usize) -> usize
    requires { count < 2 ^ 63 }
    ensures value { result ≡ padded count }
    ensures more { count ≤ result }
    ensures few { result ≤ count + 3 }
{
    (count + 3) / 4 * 4
}
