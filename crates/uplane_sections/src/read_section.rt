//! The headers of a section, read.
ghost use Rattle.std.specs.Prelude.{◌≡◌, ◌+◌, ◌*◌, ◌<◌, ◌≤◌, ◌^◌, length, false, IfSome, IfErr};
ghost use Rattle.bfp_codec.specs.Field.{field};
ghost use Rattle.bfp_codec.specs.Layout.{length_of};
ghost use Rattle.uplane_sections.specs.Section.{section_with};
ghost use Rattle.uplane_sections.specs.Phases.{symbol_checked, method_read, is_cut};

use crate::values::{USection, UWhy};
use bfp_codec::Method;
use fh_base::Shape;

/// The four bytes from a place, as one number.
#[tactic(auto, using(bfp_codec::proofs::Field::field_word))]
fn word_at(bytes: &[u8], at: usize) -> u32
    requires { at + 4 ≤ length bytes.now }
    ensures { result ≡ field bytes.now (8 * at) 32 }
{
    u32::from_be_bytes([bytes[at], bytes[at + 1], bytes[at + 2], bytes[at + 3]])
}

/// The maintained symbol number of a section, where it was `before`, by the first test of its first
/// four bytes that fails.
#[tactic(auto, using(std::proofs::lemmas::Grind::common_steps, bfp_codec::proofs::Field::field_of_word))]
pub(crate) fn symbol_at(prbs: u16, shape: Shape, before: u8, bytes: &[u8]) -> Result<u8, UWhy>
    requires { length bytes.now ≡ 4 }
    ensures value { result ≡ symbol_checked prbs shape before bytes.now }
    ensures long { IfErr result (λ why. is_cut why ≡ false) }
{
    let word = word_at(bytes, 0);
    if (word >> 19) & 1 == 1 {
        return Err(UWhy::EveryOtherRb);
    }
    let symbol = before as u16 + ((word >> 18) & 1) as u16;
    if symbol >= shape.symbols as u16 {
        return Err(UWhy::SymbolRange);
    }
    let start = (word >> 8) & 0x3ff;
    let num = word & 0xff;
    if num != 0 && start + num > prbs as u32 {
        return Err(UWhy::PrbRange);
    }
    Ok(symbol as u8)
}

/// The section with these first four bytes.
#[tactic(auto, using(std::proofs::lemmas::Grind::common_steps, bfp_codec::proofs::Field::field_of_word))]
pub(crate) fn section_from(bytes: &[u8], symbol: u8, method: Method) -> USection
    requires { length bytes.now ≡ 4 }
    ensures value { result ≡ section_with symbol method bytes.now }
    ensures start { result.start_prb < 2 ^ 10 }
{
    let word = word_at(bytes, 0);
    USection {
        id: (word >> 20) as u16,
        sym_inc: (word >> 18) & 1 == 1,
        symbol,
        start_prb: ((word >> 8) & 0x3ff) as u16,
        num_prb: (word & 0xff) as u8,
        method,
    }
}

/// The method that a compression header names; none where it is neither no compression with 16 bits
/// nor block floating point.
#[tactic(auto, using(std::proofs::lemmas::Grind::common_steps, bfp_codec::proofs::Field::fields))]
pub(crate) fn method_at(header: &[u8]) -> Option<Method>
    requires { length header.now ≡ 2 }
    ensures value { result ≡ method_read header.now }
    ensures least { IfSome result (λ m. 4 ≤ length_of m) }
    ensures most { IfSome result (λ m. length_of m ≤ 49) }
{
    let field = header[0] >> 4;
    let width = if field == 0 { 16 } else { field };
    match header[0] & 0xf {
        0 if width == 16 => Some(Method::Plain),
        1 => Some(Method::Bfp(width)),
        _ => None,
    }
}
