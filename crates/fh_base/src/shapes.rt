// What a numerology says of its endpoint.
ghost use Rattle.std.specs.Prelude.{◌≡◌, IsTrue};
ghost use Rattle.fh_base.specs.Spacing.{is_spacing_code};
ghost use Rattle.fh_base.specs.Numbering.{code_of, offsets_of, shape_of};

use crate::kind::Kind;
use crate::numerology::Numerology;
use crate::symbols::SLOT_SYMBOLS;
use crate::values::Shape;

/// The spacing code of frameStructure: 0 to 4 for `15 * 2^code` kHz, 12 for 1.25 kHz, 14 for 5 kHz.
pub fn code(n: &Numerology) -> u8
    ensures value { result ≡ code_of n.now }
    ensures known { IsTrue (is_spacing_code result) }
{
    match n.kind {
        Kind::Ordinary(spacing) => spacing.code(),
        Kind::Offset { spacing, .. } => spacing.code(),
        Kind::Extended => 2,
    }
}

/// timeOffset and cpLength. None exactly where the numerology is ordinary or extended.
pub fn offsets(n: &Numerology) -> Option<(u16, u16)>
    ensures { result ≡ offsets_of n.now }
{
    match n.kind {
        Kind::Ordinary(_) | Kind::Extended => None,
        Kind::Offset {
            time_offset,
            cp_length,
            ..
        } => Some((time_offset, cp_length)),
    }
}

/// How many symbols a slot has, and how many slots a subframe.
pub fn shape(n: &Numerology) -> Shape
    ensures { result ≡ shape_of n.now }
{
    match n.kind {
        Kind::Ordinary(spacing) | Kind::Offset { spacing, .. } => Shape {
            symbols: SLOT_SYMBOLS as u8,
            slots: 1 << spacing.exponent(),
        },
        Kind::Extended => Shape {
            symbols: 12,
            slots: 4,
        },
    }
}
