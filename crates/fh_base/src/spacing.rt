// Subcarrier spacings.

ghost use Rattle.std.specs.Prelude.{◌≡◌, ◌≤◌, ◌<◌};
ghost use Rattle.fh_base.specs.Spacing.{code_of_spacing, spacing_of, exponent_of, useful_of};

/// A spacing of the subcarriers; `Khz1x25` is 1.25 kHz.
#[derive(Clone, Copy, Debug, PartialEq, Eq)]
pub enum Spacing {
    Khz15,
    Khz30,
    Khz60,
    Khz120,
    Khz240,
    Khz1x25,
    Khz5,
}

impl Spacing {
    /// The spacing with this code of frameStructure.
    pub fn of_code(code: u8) -> Option<Spacing>
        ensures { result ≡ spacing_of code }
    {
        Some(match code {
            0 => Spacing::Khz15,
            1 => Spacing::Khz30,
            2 => Spacing::Khz60,
            3 => Spacing::Khz120,
            4 => Spacing::Khz240,
            12 => Spacing::Khz1x25,
            14 => Spacing::Khz5,
            _ => return None,
        })
    }

    /// Its code in frameStructure.
    pub fn code(self) -> u8
        ensures { result ≡ code_of_spacing self }
    {
        match self {
            Spacing::Khz15 => 0,
            Spacing::Khz30 => 1,
            Spacing::Khz60 => 2,
            Spacing::Khz120 => 3,
            Spacing::Khz240 => 4,
            Spacing::Khz1x25 => 12,
            Spacing::Khz5 => 14,
        }
    }

    /// The u of its slots, which are those of `15 * 2^u` kHz.
    pub fn exponent(self) -> u8
        ensures value { result ≡ exponent_of self }
        ensures small { result ≤ 4 }
    {
        match self {
            Spacing::Khz15 | Spacing::Khz1x25 | Spacing::Khz5 => 0,
            Spacing::Khz30 => 1,
            Spacing::Khz60 => 2,
            Spacing::Khz120 => 3,
            Spacing::Khz240 => 4,
        }
    }

    /// A symbol without its cyclic prefix, in Ts.
    pub fn useful(self) -> u64
        ensures value { result ≡ useful_of self }
        ensures small { result ≤ 24576 }
    {
        match self {
            Spacing::Khz15 => 2_048,
            Spacing::Khz30 => 1_024,
            Spacing::Khz60 => 512,
            Spacing::Khz120 => 256,
            Spacing::Khz240 => 128,
            Spacing::Khz1x25 => 24_576,
            Spacing::Khz5 => 6_144,
        }
    }
}
