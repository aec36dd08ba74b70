//! The message's header, read.
ghost use Rattle.std.specs.Prelude.{◌≡◌, length, false, IfErr};
ghost use Rattle.uplane_sections.specs.Header.{head_of};
ghost use Rattle.uplane_sections.specs.Phases.{head_checked, is_cut};

use crate::values::{UHead, UWhy};
use fh_base::Shape;

/// The fields of a header.
#[tactic(auto, using(std::proofs::lemmas::Grind::common_steps, bfp_codec::proofs::Field::fields))]
fn fields_at(bytes: &[u8]) -> UHead
    requires { length bytes.now ≡ 4 }
    ensures { result ≡ head_of bytes.now }
{
    let times = u16::from_be_bytes([bytes[2], bytes[3]]);
    UHead {
        down: bytes[0] >> 7 == 1,
        filter: bytes[0] & 0xf,
        frame_id: bytes[1],
        subframe: (times >> 12) as u8,
        slot: ((times >> 6) & 0x3f) as u8,
        symbol: (times & 0x3f) as u8,
    }
}

/// The header that a message's first four bytes are, whatever they say: no test is made.
pub fn read_head(bytes: [u8; 4]) -> UHead
    ensures { result ≡ head_of bytes }
{
    fields_at(&bytes)
}

/// The header in four bytes, by the first test that fails.
#[tactic(auto, using(std::proofs::lemmas::Grind::common_steps, bfp_codec::proofs::Field::fields))]
pub(crate) fn head_at(bytes: &[u8], shape: Shape) -> Result<UHead, UWhy>
    requires { length bytes.now ≡ 4 }
    ensures value { result ≡ head_checked shape bytes.now }
    ensures long { IfErr result (λ why. is_cut why ≡ false) }
{
    if (bytes[0] >> 4) & 7 != 1 {
        return Err(UWhy::Version);
    }
    let head = fields_at(bytes);
    if head.subframe > 9 || head.slot >= shape.slots {
        return Err(UWhy::SlotRange);
    }
    if head.symbol >= shape.symbols {
        return Err(UWhy::SymbolRange);
    }
    Ok(head)
}
