// What a line is made of.

use air_source::Side;
use cplane_sections::CWhy;
use ecpri_frames::PduWhy;

/// What a line speaks of, which is its first word.
#[derive(Clone, Copy, Debug, PartialEq, Eq)]
pub enum Kind {
    /// A record of the capture.
    Frame,
    /// A command (C-plane).
    Command,
    /// A section of a command.
    Section,
    /// A command that is refused.
    Refused,
    /// Data (U-plane).
    Data,
    /// A one-way delay measurement.
    Delay,
    /// A message whose payload is too short for its type.
    Short,
    /// A message of another type.
    Other,
    /// The fault of a frame.
    Broken,
}

/// The name of a member.
#[derive(Clone, Copy, Debug, PartialEq, Eq)]
pub enum Name {
    Action,
    At,
    Beam,
    Bytes,
    Comp,
    Cp,
    Down,
    E,
    Filter,
    Frame,
    Freq,
    Id,
    Mask,
    MessageType,
    Nanoseconds,
    Num,
    Number,
    Offset,
    Place,
    Prb,
    Seconds,
    Sections,
    Seq,
    Size,
    Slot,
    Structure,
    Sub,
    Subframe,
    Symbol,
    Symbols,
    Ticks,
    Way,
    Why,
}

/// A word, which is a string in JSON.
#[derive(Clone, Copy, Debug, PartialEq, Eq)]
pub enum Word {
    /// Two hexadecimal digits.
    Hex2(u8),
    /// Three hexadecimal digits, of the low 12 bits.
    Hex3(u16),
    /// Four hexadecimal digits.
    Hex4(u16),
    /// The way of a frame: `dl` to the radio unit, `ul` to the distributed unit.
    Way(Side),
    /// Why a command is refused.
    Command(CWhy),
    /// A command that is not one whole message.
    Fragmented,
    /// Why a frame is refused.
    Frame(PduWhy),
}

/// What a member says.
#[derive(Clone, Copy, Debug, PartialEq, Eq)]
pub enum Field {
    /// A number without sign.
    Count(u64),
    /// A number with a sign.
    Signed(i64),
    /// A word.
    Word(Word),
}

/// A name with a number or a word.
#[derive(Clone, Copy, Debug, PartialEq, Eq)]
pub struct Member {
    pub name: Name,
    pub field: Field,
}

impl Default for Member {
    fn default() -> Member {
        Member {
            name: Name::Place,
            field: Field::Count(0),
        }
    }
}
