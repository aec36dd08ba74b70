//! The common header of a message.
ghost use Rattle.std.specs.Prelude.{◌≡◌};
ghost use Rattle.ecpri_frames.specs.Headers.{head_of, WritesHead};
ghost use Rattle.ecpri_frames.specs.Messages.{padding};

use byteorder::{BigEndian, ByteOrder};

/// The message type of IQ data (eCPRI 2.0, section 3.2.4).
pub const IQ_DATA: u8 = 0;

/// The message type of real-time control data.
pub const REAL_TIME_CONTROL: u8 = 2;

/// The message type of one-way delay measurement.
pub const ONE_WAY_DELAY: u8 = 5;

/// What the common header of a message says (eCPRI 2.0, section 3.1.3).
#[derive(Clone, Copy, Debug, PartialEq, Eq)]
pub struct Head {
    /// The C bit: whether another message follows in the same frame.
    pub more: bool,
    /// The message type.
    pub kind: u8,
    /// The payload size in bytes, without the header and without padding.
    pub size: u16,
}

/// Reads the four bytes of a common header: revision 4 bits, reserved 3, C 1, message type 8,
/// payload size 16. Revision and reserved bits may hold anything.
#[tactic(auto, using(std::proofs::lemmas::Grind::common_steps, bfp_codec::proofs::Field::fields))]
pub fn read_head(bytes: [u8; 4]) -> Head
    ensures { result ≡ head_of bytes }
{
    Head {
        more: bytes[0] & 1 == 1,
        kind: bytes[1],
        size: BigEndian::read_u16(&bytes[2..]),
    }
}

/// The four bytes of a common header, of revision 1 and with reserved bits 0.
#[tactic(auto, using(std::proofs::lemmas::Grind::common_steps, bfp_codec::proofs::Field::fields))]
pub fn put_head(head: Head) -> [u8; 4]
    ensures { WritesHead head result }
{
    let mut bytes = [0x10, head.kind, 0, 0];
    if head.more {
        bytes[0] = 0x11;
    }
    BigEndian::write_u16(&mut bytes[2..], head.size);
    bytes
}

/// How many padding bytes, 0 to 3, follow a message with a payload of this size where another
/// message is after it (eCPRI 2.0, section 3.1.2).
pub fn pad_after(size: u16) -> usize
    ensures { result ≡ padding size }
{
    ((4 - size % 4) % 4) as usize
}
