// The application header, written.
ghost use Rattle.std.specs.Prelude.{◌≡◌, ℕ, ◌+◌, ◌-◌, ◌*◌, ◌≤◌, ◌<◌, ◌^◌, [], length, take, slice_index};
ghost use Rattle.cplane_sections.specs.Header.{size_of_head, kind_of};
ghost use Rattle.cplane_sections.specs.Message.{HeadFits};
ghost use Rattle.bfp_codec.specs.Field.{flag};
ghost use Rattle.cplane_sections.specs.Writes.{WritesHead, WritesMessage};
ghost use Rattle.cplane_sections.specs.Words.{words_of, BodyFits};

use crate::values::{CBody, CHead};
use crate::write_section::put_word;

/// The first word of the header.
#[tactic(auto, using(std::proofs::lemmas::Grind::common_steps))]
fn first_word(head: &CHead) -> u32
    requires { HeadFits head.now }
    ensures frame { head.now.frame_id < 2 ^ 8 }
    ensures value { result ≡ ((((flag head.now.down * 2 ^ 3 + 1) * 2 ^ 4 + head.now.filter) * 2 ^ 8 + head.now.frame_id) * 2 ^ 4 + head.now.subframe) * 2 ^ 12 + head.now.slot * 2 ^ 6 + head.now.start_symbol }
{
    let down = if head.down { 9 } else { 1 };
    let high = (((down << 4) | head.filter as u32) << 8) | head.frame_id as u32;
    (((((high << 4) | head.subframe as u32) << 6) | head.slot as u32) << 6)
        | head.start_symbol as u32
}

/// The second and the third word of the header; section type 1 has no third.
#[tactic(auto, using(std::proofs::lemmas::Grind::common_steps))]
fn other_words(head: &CHead) -> (u32, u32)
    ensures count { head.now.count < 2 ^ 8 }
    ensures body { BodyFits head.now.body }
    ensures value { result ≡ words_of head.now }
{
    let first = ((head.count as u32) << 8);
    match head.body {
        CBody::Idle {
            time_offset,
            structure,
            cp_length,
        } => (
            (first << 16) | time_offset as u32,
            ((((structure as u32) << 16) | cp_length as u32) << 8),
        ),
        CBody::Normal { comp } => ((((first | 1) << 8 | comp as u32) << 8), 0),
        CBody::Offset {
            time_offset,
            structure,
            cp_length,
            comp,
        } => (
            ((first | 3) << 16) | time_offset as u32,
            ((((structure as u32) << 16) | cp_length as u32) << 8) | comp as u32,
        ),
    }
}

/// Writes a header, reserved bits 0, and answers how many bytes it has: 8 in section type 1, 12 in 0 and 3.
///
/// The bytes after them stay as they are.
pub fn put_head(head: &CHead, into: &mut [u8]) -> usize
    requires room { 12 ≤ length into.old }
    requires fits { HeadFits head.now }
    ensures size { result ≡ size_of_head (kind_of head.now.body) }
    ensures short { result ≤ 12 }
    ensures written { WritesHead head.now into.new }
    ensures rest { (k : ℕ) → result ≤ k → slice_index into.new k ≡ slice_index into.old k }

    // The bytes begin a message.
    ensures message { WritesMessage head.now [] (take result into.new) }
{
    let (second, third) = other_words(head);
    put_word(into, 0, first_word(head));
    put_word(into, 4, second);
    if let CBody::Normal { .. } = head.body {
        return 8;
    }
    put_word(into, 8, third);
    12
}
