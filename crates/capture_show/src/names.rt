// The names of members, and the first words of lines.
ghost use Rattle.std.specs.Prelude.{◌≡◌, ◌≤◌, length};
ghost use Rattle.capture_show.specs.Lines.{name_text, kind_text, is_bare};

use crate::values::{Kind, Name};

/// The first word of a line.
pub fn kind_text(kind: Kind) -> &'static str
    ensures text { result.now ≡ kind_text kind }
    ensures short { length result.now ≤ 7 }
{
    match kind {
        Kind::Frame => "frame",
        Kind::Command => "c",
        Kind::Section => "section",
        Kind::Refused => "refused",
        Kind::Data => "u",
        Kind::Delay => "delay",
        Kind::Short => "short",
        Kind::Other => "other",
        Kind::Broken => "broken",
    }
}

/// Whether the members of a line are in the text without their names.
pub fn is_bare(kind: Kind) -> bool
    ensures { result ≡ is_bare kind }
{
    matches!(kind, Kind::Frame)
}

/// The name of a member.
pub fn name_text(name: Name) -> &'static str
    ensures text { result.now ≡ name_text name }
    ensures short { length result.now ≤ 11 }
{
    match name {
        Name::Action => "action",
        Name::At => "at",
        Name::Beam => "beam",
        Name::Bytes => "bytes",
        Name::Comp => "comp",
        Name::Cp => "cp",
        Name::Down => "down",
        Name::E => "e",
        Name::Filter => "filter",
        Name::Frame => "frame",
        Name::Freq => "freq",
        Name::Id => "id",
        Name::Mask => "mask",
        Name::MessageType => "type",
        Name::Nanoseconds => "nanoseconds",
        Name::Num => "num",
        Name::Number => "number",
        Name::Offset => "offset",
        Name::Place => "place",
        Name::Prb => "prb",
        Name::Seconds => "seconds",
        Name::Sections => "sections",
        Name::Seq => "seq",
        Name::Size => "size",
        Name::Slot => "slot",
        Name::Structure => "structure",
        Name::Sub => "sub",
        Name::Subframe => "subframe",
        Name::Symbol => "symbol",
        Name::Symbols => "symbols",
        Name::Ticks => "ticks",
        Name::Way => "way",
        Name::Why => "why",
    }
}
