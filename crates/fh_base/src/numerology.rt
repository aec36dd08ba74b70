ghost use Rattle.std.specs.Prelude.{◌≡◌, ◌<◌, ◌^◌, ◌↔◌, IsTrue, IsSome, IfSome};
ghost use Rattle.fh_base.specs.Kinds.{time_offset_of, cp_length_of};

use crate::kind::Kind;
use crate::spacing::Spacing;

/// How an endpoint's frames are cut into slots and symbols: made by `ordinary`, `extended` or `offset`. The two numbers of an
/// offset one have 16 bits.
#[derive(Clone, Copy, Debug, PartialEq, Eq)]
pub struct Numerology {
    pub(crate) kind: Kind,
    pub ghost short_offset: { time_offset_of kind < 2 ^ 16 },
    pub ghost short_prefix: { cp_length_of kind < 2 ^ 16 },
}

impl Numerology {
    ghost use Rattle.fh_base.specs.Spacing.{is_normal_code, is_spacing_code};
    ghost use Rattle.fh_base.specs.Numbering.{ordinary_of, offset_of, extended_of, code_of, offsets_of};

    /// An endpoint of 60 kHz with the extended cyclic prefix: a subframe has 4 slots of 12 symbols.
    pub fn extended() -> Numerology
        ensures value { result ≡ extended_of }
        ensures code { code_of result ≡ 2 }
        ensures offsets { offsets_of result ≡ None }
    {
        Numerology {
            kind: Kind::Extended,
        }
    }

    /// An ordinary endpoint of `15 * 2^code` kHz with the normal cyclic prefix. None exactly where the code is above 4.
    pub fn ordinary(code: u8) -> Option<Numerology>
        ensures value { result ≡ ordinary_of code }
        ensures known { IsSome result ↔ IsTrue (is_normal_code code) }
        ensures code { IfSome result (λ n. code_of n ≡ code) }
        ensures offsets { IfSome result (λ n. offsets_of n ≡ None) }
    {
        if code > 4 {
            return None;
        }
        let spacing = Spacing::of_code(code)?;
        Some(Numerology {
            kind: Kind::Ordinary(spacing),
        })
    }

    /// An endpoint of section type 3, with timeOffset in Ts and cpLength in Ts over 2^u. None exactly where the code is none of
    /// 0 to 4 (`15 * 2^code` kHz), 12 (1.25 kHz) and 14 (5 kHz).
    pub fn offset(code: u8, time_offset: u16, cp_length: u16) -> Option<Numerology>
        ensures value { result ≡ offset_of code time_offset cp_length }
        ensures known { IsSome result ↔ IsTrue (is_spacing_code code) }
        ensures code { IfSome result (λ n. code_of n ≡ code) }
        ensures offsets { IfSome result (λ n. offsets_of n ≡ Some (time_offset, cp_length)) }
    {
        let spacing = Spacing::of_code(code)?;
        Some(Numerology {
            kind: Kind::Offset {
                spacing,
                time_offset,
                cp_length,
            },
        })
    }
}
