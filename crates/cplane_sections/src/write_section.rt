// One section, written.
ghost use Rattle.std.specs.Prelude.{◌≡◌, ℕ, ◌+◌, ◌-◌, ◌*◌, ◌≤◌, ◌<◌, ◌^◌, ◌⊎◌, List, [], ◌∷◌, ◌++◌, length, take, slice_index, if◌then◌else◌, ◌==◌};
ghost use Rattle.bfp_codec.specs.Field.{field, flag};
ghost use Rattle.fh_base.specs.declared.values.Shape.{Shape};
ghost use Rattle.cplane_sections.specs.declared.values.CSection.{CSection};
ghost use Rattle.cplane_sections.specs.Header.{kind_of};
ghost use Rattle.cplane_sections.specs.Section.{size_of_section};
ghost use Rattle.cplane_sections.specs.Message.{SectionFits, Admits};
ghost use Rattle.cplane_sections.specs.Writes.{WritesSection, WritesMessage, IsReadAs};

use crate::values::{CBody, CHead, CSection};

/// Writes four bytes.
#[tactic(auto, using(std::proofs::lemmas::Grind::common_steps, bfp_codec::proofs::Field::field_put))]
pub fn put_word(into: &mut [u8], at: usize, word: u32)
    requires { at + 4 ≤ length into.old }
    ensures word { field into.new (8 * at) 32 ≡ word }
    ensures others { (k : ℕ) → (k < at) ⊎ (at + 4 ≤ k) → slice_index into.new k ≡ slice_index into.old k }
{
    into[at] = (word >> 24) as u8;
    into[at + 1] = ((word >> 16) & 0xff) as u8;
    into[at + 2] = ((word >> 8) & 0xff) as u8;
    into[at + 3] = (word & 0xff) as u8;
}

/// sectionId, rb, symInc, startPrbc and numPrbc.
#[tactic(auto, using(std::proofs::lemmas::Grind::common_steps))]
fn first_word(s: &CSection) -> u32
    requires { SectionFits s.now }
    ensures num_prb { s.now.num_prb < 2 ^ 8 }
    ensures value { result ≡ ((s.now.id * 4 + flag s.now.sym_inc) * 2 ^ 10 + s.now.start_prb) * 2 ^ 8 + s.now.num_prb }
{
    let inc = if s.sym_inc { 1 } else { 0 };
    let high = ((s.id as u32) << 2) | inc;
    ((high << 10 | s.start_prb as u32) << 8) | s.num_prb as u32
}

/// reMask, numSymbol, ef and beamId.
#[tactic(auto, using(std::proofs::lemmas::Grind::common_steps))]
fn second_word(body: CBody, s: &CSection) -> u32
    requires { SectionFits s.now }
    ensures { result ≡ (s.now.mask * 2 ^ 4 + s.now.num_symbol) * 2 ^ 16 + (if kind_of body == 0 then 0 else s.now.beam) }
{
    let high = ((s.mask as u32) << 4) | s.num_symbol as u32;
    let beam = match body {
        CBody::Idle { .. } => 0,
        _ => s.beam,
    };
    (high << 16) | beam as u32
}

/// Writes a section of a message with this header, reserved bits 0, and answers how many bytes it has: 12 in section
/// type 3, 8 in 0 and 1.
///
/// `symbol` is not written, `beam` not in section type 0, `freq_offset` only in type 3. The bytes after the section stay
/// as they are.
#[tactic(auto, using(std::proofs::lemmas::Grind::common_steps, bfp_codec::proofs::Field::field_of_word))]
pub fn put_section(head: &CHead, s: &CSection, into: &mut [u8]) -> usize
    requires room { 12 ≤ length into.old }
    requires fits { SectionFits s.now }
    ensures size { result ≡ size_of_section (kind_of head.now.body) }
    ensures short { result ≤ 12 }
    ensures written { WritesSection (kind_of head.now.body) s.now into.new }
    ensures rest { (k : ℕ) → result ≤ k → slice_index into.new k ≡ slice_index into.old k }

    // Behind a message with this header, the bytes make a message with one section more.
    ensures message { (front : List ℕ) → (ss : List CSection) → WritesMessage head.now ss front → WritesMessage head.now (ss ++ s.now ∷ []) (front ++ take result into.new) }
    // It is read back where the tests admit it.
    ensures read_back { (shape : Shape) → (front : List ℕ) → (ss : List CSection) → WritesMessage head.now ss front → Admits shape head.now (ss ++ s.now ∷ []) → IsReadAs shape head.now (ss ++ s.now ∷ []) (front ++ take result into.new) }
{
    put_word(into, 0, first_word(s));
    put_word(into, 4, second_word(head.body, s));
    if let CBody::Offset { .. } = head.body {
        put_word(into, 8, s.freq_offset.cast_unsigned() << 8);
        return 12;
    }
    8
}
