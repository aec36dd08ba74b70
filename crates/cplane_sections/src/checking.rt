// The tests of a whole message.
ghost use Rattle.std.specs.Prelude.{◌≡◌, ◌+◌, ◌≤◌, ◌<◌, length, IfOk};
ghost use Rattle.cplane_sections.specs.Tests.{symbol_checked, walked, sections_checked, checked, IsHeadOf};
ghost use Rattle.cplane_sections.specs.Header.{size_of_head, kind_of};
ghost use Rattle.cplane_sections.specs.Message.{sections_in, Admits, MessageFits};

use crate::read_header::{head_at, head_size};
use crate::read_section::{section_size, word_at};
use crate::values::{CHead, CRefusal, CWhy};
use fh_base::Shape;

/// The maintained symbol number of the section at a place, where it was `before`, by the first test that fails.
#[tactic(auto, using(std::proofs::lemmas::Grind::common_steps, bfp_codec::proofs::Field::field_of_word))]
fn symbol_at(
    bytes: &[u8],
    place: usize,
    size: usize,
    symbols: u8,
    before: u8,
) -> Result<u8, CRefusal>
    requires place { place ≤ length bytes.now }
    requires size { 8 ≤ size }
    requires before { before < symbols }
    ensures value { result ≡ symbol_checked size symbols bytes.now place before }
    ensures below { IfOk result (λ symbol. symbol < symbols) }
    ensures room { IfOk result (λ symbol. place + size ≤ length bytes.now) }
{
    let rest = &bytes[place..];
    if rest.len() < size {
        return Err(CRefusal {
            place: bytes.len(),
            why: CWhy::Truncated,
        });
    }
    let first = word_at(rest, 0);
    let second = word_at(rest, 4);
    if (first >> 19) & 1 == 1 {
        return Err(CRefusal {
            place,
            why: CWhy::EveryOtherRb,
        });
    }
    if (second >> 15) & 1 == 1 {
        return Err(CRefusal {
            place,
            why: CWhy::Extension,
        });
    }
    let inc = ((first >> 18) & 1) as u8;
    let num_symbol = ((second >> 16) & 0xf) as u8;
    if num_symbol == 0 {
        return Err(CRefusal {
            place,
            why: CWhy::SymbolRange,
        });
    }
    if before as u16 + inc as u16 + num_symbol as u16 > symbols as u16 {
        return Err(CRefusal {
            place,
            why: CWhy::SymbolRange,
        });
    }
    Ok(before + inc)
}

/// The place after the sections, by the first test of a section that fails.
fn walk(bytes: &[u8], head: &CHead, shape: Shape) -> Result<usize, CRefusal>
    requires start { size_of_head (kind_of head.now.body) ≤ length bytes.now }
    requires first { head.now.start_symbol < shape.symbols }
    ensures value { result ≡ sections_checked shape head.now bytes.now }
    ensures within { IfOk result (λ end. end ≤ length bytes.now) }
{
    let size = section_size(head.body);
    let mut place = head_size(head.body);
    let mut symbol = head.start_symbol;
    for k in 0..head.count {
        symbol = symbol_at(bytes, place, size, shape.symbols, symbol)?;
        place += size;
    }
    Ok(place)
}

/// Tests a C-plane application message and reads its header.
///
/// `shape` says how many symbols a slot and how many slots a subframe has. An error is the first test that fails, with
/// its place (O-RAN.WG4.CUS, clauses 7.5.2 and 7.5.3).
#[tactic(auto, unfolding(crate::specs::Tests::checked))]
pub fn check(bytes: &[u8], shape: Shape) -> Result<CHead, CRefusal>
    ensures value { result ≡ checked shape bytes.now }

    // What callers need of a message that passed.
    ensures passed { IfOk result (λ head. IsHeadOf head bytes.now) }
    ensures admitted { IfOk result (λ head. Admits shape head (sections_in head bytes.now)) }
    ensures fits { IfOk result (λ head. MessageFits head (sections_in head bytes.now)) }
{
    let head = head_at(bytes, shape)?;
    let end = walk(bytes, &head, shape)?;
    if end < bytes.len() {
        return Err(CRefusal {
            place: end,
            why: CWhy::Trailing,
        });
    }
    Ok(head)
}
