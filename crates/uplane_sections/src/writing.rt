//! The headers, written.
ghost use Rattle.std.specs.Prelude.{◌≡◌, ℕ, ◌+◌, ◌-◌, ◌*◌, ◌≤◌, ◌<◌, ◌^◌, ◌⊎◌, List, [], ◌∷◌, length, take, slice_index};
ghost use Rattle.bfp_codec.specs.Field.{field, flag};
ghost use Rattle.fh_base.specs.declared.values.Shape.{Shape};
ghost use Rattle.bfp_codec.specs.declared.methods.Format.{Format as SpecFormat};
ghost use Rattle.bfp_codec.specs.Layout.{HasWidth};
ghost use Rattle.uplane_sections.specs.Section.{header_size};
ghost use Rattle.uplane_sections.specs.Messages.{Head};
ghost use Rattle.uplane_sections.specs.Writes.{HeadFits, SectionFits, IsHeadAdmitted, WritesHead, WritesSection, SaysSoFar, AddsSection, udCompHdr};

use crate::values::{UHead, USection};
use bfp_codec::{Format, Method};

/// Writes four bytes at the front.
#[tactic(auto, using(std::proofs::lemmas::Grind::common_steps, bfp_codec::proofs::Field::field_put))]
fn put_word(into: &mut [u8], word: u32)
    requires { 4 ≤ length into.old }
    ensures word { field into.new 0 32 ≡ word }
    ensures others { (k : ℕ) → 4 ≤ k → slice_index into.new k ≡ slice_index into.old k }
{
    into[0] = (word >> 24) as u8;
    into[1] = ((word >> 16) & 0xff) as u8;
    into[2] = ((word >> 8) & 0xff) as u8;
    into[3] = (word & 0xff) as u8;
}

/// The word of a header.
#[tactic(auto, using(std::proofs::lemmas::Grind::common_steps))]
fn head_word(head: &UHead) -> u32
    requires { HeadFits head.now }
    ensures frame { head.now.frame_id < 2 ^ 8 }
    ensures value { result ≡ ((((flag head.now.down * 2 ^ 3 + 1) * 2 ^ 4 + head.now.filter) * 2 ^ 8 + head.now.frame_id) * 2 ^ 4 + head.now.subframe) * 2 ^ 12 + head.now.slot * 2 ^ 6 + head.now.symbol }
{
    let down = if head.down { 9 } else { 1 };
    let high = (((down << 4) | head.filter as u32) << 8) | head.frame_id as u32;
    (((((high << 4) | head.subframe as u32) << 6) | head.slot as u32) << 6) | head.symbol as u32
}

/// The four bytes of a message's header, with payloadVersion 1.
pub fn put_head(head: &UHead) -> [u8; 4]
    requires { HeadFits head.now }
    ensures written { WritesHead head.now result }

    // They are a message without sections, and read back as this header, where the tests admit it.
    ensures read_back { (format : SpecFormat) (prbs : ℕ) (shape : Shape) → IsHeadAdmitted shape head.now
        → SaysSoFar format prbs shape result (Head head.now ∷ []) head.now.symbol }
{
    let mut bytes = [0; 4];
    put_word(&mut bytes, head_word(head));
    bytes
}

/// The first word of a section.
#[tactic(auto, using(std::proofs::lemmas::Grind::common_steps))]
fn section_word(s: &USection) -> u32
    requires id { s.now.id < 2 ^ 12 }
    requires start { s.now.start_prb < 2 ^ 10 }
    ensures num_prb { s.now.num_prb < 2 ^ 8 }
    ensures value { result ≡ ((s.now.id * 4 + flag s.now.sym_inc) * 2 ^ 10 + s.now.start_prb) * 2 ^ 8 + s.now.num_prb }
{
    let inc = if s.sym_inc { 1 } else { 0 };
    let high = ((s.id as u32) << 2) | inc;
    ((high << 10 | s.start_prb as u32) << 8) | s.num_prb as u32
}

/// udCompHdr of a method.
#[tactic(auto, using(std::proofs::lemmas::Grind::common_steps))]
fn compression_byte(method: Method) -> u8
    requires { HasWidth method }
    ensures { result ≡ udCompHdr method }
{
    match method {
        Method::Plain => 0,
        Method::Bfp(width) => ((width & 0xf) << 4) | 1,
    }
}

/// Writes the compression header of a method after four bytes.
#[tactic(auto, using(std::proofs::lemmas::Grind::common_steps))]
fn put_compression(into: &mut [u8], method: Method)
    requires room { 6 ≤ length into.old }
    requires width { HasWidth method }
    ensures byte { slice_index into.new 4 ≡ udCompHdr method }
    ensures reserved { slice_index into.new 5 ≡ 0 }
    ensures others { (k : ℕ) → (k < 4) ⊎ (6 ≤ k) → slice_index into.new k ≡ slice_index into.old k }
{
    into[4] = compression_byte(method);
    into[5] = 0;
}

/// Writes the headers of a section, reserved bits 0, and answers how many bytes they have: 6 in a
/// dynamic format, 4 in a static one.
///
/// `symbol` is not written, and in a static format `method` is not. The bytes after the headers stay
/// as they are. In a dynamic format no compression is written as udCompHdr 0.
pub fn put_section(s: &USection, format: Format, into: &mut [u8]) -> usize
    requires room { 6 ≤ length into.old }
    requires fits { SectionFits format s.now }
    ensures size { result ≡ header_size format }
    ensures short { result ≤ 6 }
    ensures written { WritesSection format s.now into.new }
    ensures rest { (k : ℕ) → result ≤ k → slice_index into.new k ≡ slice_index into.old k }

    // After a message, and with its packed PRBs after it, the section is read back where the tests admit it.
    ensures read_back { (prbs : ℕ) (shape : Shape) → AddsSection format prbs shape s.now (take result into.new) }
{
    put_word(into, section_word(s));
    if !format.dynamic {
        return 4;
    }
    put_compression(into, s.method);
    6
}
