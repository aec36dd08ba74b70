// One section, read.
ghost use Rattle.std.specs.Prelude.{◌≡◌, ◌+◌, ◌*◌, ◌≤◌, ◌<◌, length};
ghost use Rattle.bfp_codec.specs.Field.{field};
ghost use Rattle.cplane_sections.specs.Header.{kind_of};
ghost use Rattle.cplane_sections.specs.Section.{size_of_section, section_of, offset_of, beam_of};

use crate::values::{CBody, CSection};

/// How many bytes a section has.
pub fn section_size(body: CBody) -> usize
    ensures size { result ≡ size_of_section (kind_of body) }
    ensures least { 8 ≤ result }
{
    match body {
        CBody::Offset { .. } => 12,
        _ => 8,
    }
}

/// The four bytes from a place, as one number.
#[tactic(auto, using(bfp_codec::proofs::Field::field_word))]
pub fn word_at(bytes: &[u8], at: usize) -> u32
    requires { at + 4 ≤ length bytes.now }
    ensures { result ≡ field bytes.now (8 * at) 32 }
{
    u32::from_be_bytes([bytes[at], bytes[at + 1], bytes[at + 2], bytes[at + 3]])
}

/// The section that the bytes begin with, after the maintained symbol number `before`.
#[tactic(auto, using(std::proofs::lemmas::Grind::common_steps, bfp_codec::proofs::Field::field_of_word))]
pub fn section_at(bytes: &[u8], body: CBody, before: u8) -> CSection
    requires room { size_of_section (kind_of body) ≤ length bytes.now }
    requires symbol { before < 255 }
    ensures { result ≡ section_of (kind_of body) before bytes.now }
{
    let first = word_at(bytes, 0);
    let second = word_at(bytes, 4);
    let sym_inc = (first >> 18) & 1 == 1;
    CSection {
        id: (first >> 20) as u16,
        sym_inc,
        symbol: if sym_inc { before + 1 } else { before },
        start_prb: ((first >> 8) & 0x3ff) as u16,
        num_prb: (first & 0xff) as u8,
        mask: (second >> 20) as u16,
        num_symbol: ((second >> 16) & 0xf) as u8,
        beam: beam_at(bytes, body),
        freq_offset: offset_at(bytes, body),
    }
}

/// The beam, which section type 0 has not.
#[tactic(auto, using(std::proofs::lemmas::Grind::common_steps, bfp_codec::proofs::Field::field_of_word))]
fn beam_at(bytes: &[u8], body: CBody) -> u16
    requires { size_of_section (kind_of body) ≤ length bytes.now }
    ensures { result ≡ beam_of (kind_of body) bytes.now }
{
    match body {
        CBody::Idle { .. } => 0,
        _ => (word_at(bytes, 4) & 0x7fff) as u16,
    }
}

/// The frequency offset, which section type 3 alone has; the shift keeps its sign.
#[tactic(auto, using(std::proofs::lemmas::Grind::common_steps, bfp_codec::proofs::Field::field_of_word))]
fn offset_at(bytes: &[u8], body: CBody) -> i32
    requires { size_of_section (kind_of body) ≤ length bytes.now }
    ensures { result ≡ offset_of (kind_of body) bytes.now }
{
    match body {
        CBody::Offset { .. } => word_at(bytes, 8).cast_signed() >> 8,
        _ => 0,
    }
}
