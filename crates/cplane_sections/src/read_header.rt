// The application header, read.
ghost use Rattle.std.specs.Prelude.{◌≡◌, ◌+◌, ◌≤◌, ◌<◌, ◌⊎◌, length, IfOk};
ghost use Rattle.cplane_sections.specs.Header.{sectionType, size_of_head, body_of, head_of, kind_of};
ghost use Rattle.cplane_sections.specs.Tests.{head_checked};

use crate::values::{CBody, CHead, CRefusal, CWhy};
use fh_base::Shape;

/// The header of the message, by the first test that fails.
#[tactic(auto, using(std::proofs::lemmas::Grind::common_steps, bfp_codec::proofs::Field::fields))]
pub fn head_at(bytes: &[u8], shape: Shape) -> Result<CHead, CRefusal>
    ensures value { result ≡ head_checked shape bytes.now }
    ensures room { IfOk result (λ head. size_of_head (kind_of head.body) ≤ length bytes.now) }
    ensures symbol { IfOk result (λ head. head.start_symbol < shape.symbols) }
{
    if bytes.len() < 6 {
        return Err(CRefusal {
            place: bytes.len(),
            why: CWhy::Truncated,
        });
    }
    if (bytes[0] >> 4) & 7 != 1 {
        return Err(CRefusal {
            place: 0,
            why: CWhy::Version,
        });
    }
    let kind = bytes[5];
    if kind != 0 && kind != 1 && kind != 3 {
        return Err(CRefusal {
            place: 0,
            why: CWhy::SectionType,
        });
    }
    let size = if kind == 1 { 8 } else { 12 };
    if bytes.len() < size {
        return Err(CRefusal {
            place: bytes.len(),
            why: CWhy::Truncated,
        });
    }
    let head = fields_at(bytes, kind);
    if head.subframe > 9 || head.slot >= shape.slots {
        return Err(CRefusal {
            place: 0,
            why: CWhy::SlotRange,
        });
    }
    if head.start_symbol >= shape.symbols {
        return Err(CRefusal {
            place: 0,
            why: CWhy::SymbolRange,
        });
    }
    if head.count == 0 {
        return Err(CRefusal {
            place: 0,
            why: CWhy::NoSections,
        });
    }
    Ok(head)
}

/// The fields of a header that is whole.
#[tactic(auto, using(std::proofs::lemmas::Grind::common_steps, bfp_codec::proofs::Field::fields))]
fn fields_at(bytes: &[u8], kind: u8) -> CHead
    requires is_kind { kind ≡ sectionType bytes.now }
    requires known { (kind ≡ 0) ⊎ ((kind ≡ 1) ⊎ (kind ≡ 3)) }
    requires room { size_of_head kind ≤ length bytes.now }
    ensures value { result ≡ head_of bytes.now }
    ensures kind { kind_of result.body ≡ kind }
{
    let times = u16::from_be_bytes([bytes[2], bytes[3]]);
    CHead {
        down: bytes[0] >> 7 == 1,
        filter: bytes[0] & 0xf,
        frame_id: bytes[1],
        subframe: (times >> 12) as u8,
        slot: ((times >> 6) & 0x3f) as u8,
        start_symbol: (times & 0x3f) as u8,
        count: bytes[4],
        body: body_at(bytes, kind),
    }
}

/// The fields that the section type adds.
#[tactic(auto, using(std::proofs::lemmas::Grind::common_steps, bfp_codec::proofs::Field::fields))]
fn body_at(bytes: &[u8], kind: u8) -> CBody
    requires known { (kind ≡ 0) ⊎ ((kind ≡ 1) ⊎ (kind ≡ 3)) }
    requires room { size_of_head kind ≤ length bytes.now }
    ensures value { result ≡ body_of kind bytes.now }
    ensures kind { kind_of result ≡ kind }
{
    if kind == 1 {
        return CBody::Normal { comp: bytes[6] };
    }
    let time_offset = u16::from_be_bytes([bytes[6], bytes[7]]);
    let structure = bytes[8];
    let cp_length = u16::from_be_bytes([bytes[9], bytes[10]]);
    if kind == 0 {
        CBody::Idle {
            time_offset,
            structure,
            cp_length,
        }
    } else {
        CBody::Offset {
            time_offset,
            structure,
            cp_length,
            comp: bytes[11],
        }
    }
}

/// How many bytes a header has.
pub fn head_size(body: CBody) -> usize
    ensures { result ≡ size_of_head (kind_of body) }
{
    match body {
        CBody::Normal { .. } => 8,
        _ => 12,
    }
}
