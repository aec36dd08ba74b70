// Reasons that read the same.
ghost use Rattle.std.specs.Prelude.{◌≡◌};
ghost use Rattle.explain_model.specs.Reasons.{word_of};
ghost use Rattle.explain_model.specs.Same.{detail_of, from_of, pieces_of, place_of, same_reason};

use explain_model::Reason;

/// The place of a reason's first word among all words.
pub fn word_place(reason: &Reason) -> u8
    ensures { result ≡ place_of (word_of reason.now) }
{
    match reason {
        Reason::Other { .. } => 0,
        Reason::Late { .. } => 1,
        Reason::Early { .. } => 2,
        Reason::Refused { .. } => 3,
        Reason::WrongWay { .. } => 4,
        Reason::Repeated { .. } => 5,
        Reason::Unfinished { .. } => 6,
        Reason::CommandMismatch { .. } => 7,
        Reason::CommandLate { .. } => 8,
        Reason::CommandEarly { .. } => 9,
        Reason::CommandRange { .. } => 10,
        Reason::CommandRepeat { .. } => 11,
        Reason::CommandOverlap { .. } => 12,
        Reason::CommandFull { .. } => 13,
        Reason::NoData { .. } => 14,
        Reason::NoCommand => 15,
    }
}

/// The arrival that is the cause; 0 where there is none.
fn from_of(reason: &Reason) -> u32
    ensures { result ≡ from_of reason.now }
{
    match reason {
        Reason::Other { from, .. }
        | Reason::Late { from, .. }
        | Reason::Early { from, .. }
        | Reason::Refused { from }
        | Reason::WrongWay { from }
        | Reason::Repeated { from, .. }
        | Reason::Unfinished { from, .. }
        | Reason::CommandMismatch { from }
        | Reason::CommandLate { from, .. }
        | Reason::CommandEarly { from, .. }
        | Reason::CommandRange { from }
        | Reason::CommandRepeat { from }
        | Reason::CommandOverlap { from }
        | Reason::CommandFull { from } => *from,
        Reason::NoData { from } => match from {
            Some(from) => *from,
            None => 0,
        },
        Reason::NoCommand => 0,
    }
}

/// The number beside the arrival: a section id, a distance or a sequence id.
fn detail_of(reason: &Reason) -> u64
    ensures { result ≡ detail_of reason.now }
{
    match reason {
        Reason::Other { section, .. } => u64::from(*section),
        Reason::Late { by, .. }
        | Reason::Early { by, .. }
        | Reason::CommandLate { by, .. }
        | Reason::CommandEarly { by, .. } => *by,
        Reason::Repeated { seq, .. } | Reason::Unfinished { seq, .. } => u64::from(*seq),
        Reason::NoData { from } => match from {
            Some(_) => 1,
            None => 0,
        },
        Reason::Refused { .. }
        | Reason::WrongWay { .. }
        | Reason::CommandMismatch { .. }
        | Reason::CommandRange { .. }
        | Reason::CommandRepeat { .. }
        | Reason::CommandOverlap { .. }
        | Reason::CommandFull { .. }
        | Reason::NoCommand => 0,
    }
}

/// How many fragments it names.
fn pieces_of(reason: &Reason) -> usize
    ensures { result ≡ pieces_of reason.now }
{
    match reason {
        Reason::Unfinished { pieces, .. } => *pieces,
        _ => 0,
    }
}

/// Whether two reasons read the same.
pub fn same_reason(a: &Reason, b: &Reason) -> bool
    ensures { result ≡ same_reason a.now b.now }
{
    word_place(a) == word_place(b)
        && from_of(a) == from_of(b)
        && detail_of(a) == detail_of(b)
        && pieces_of(a) == pieces_of(b)
}
