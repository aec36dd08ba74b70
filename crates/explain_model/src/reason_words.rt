// The words of a reason.
ghost use Rattle.std.specs.Prelude.{◌≡◌, ◌+◌, ◌≤◌, ◌++◌, length};
ghost use Rattle.explain_model.specs.Reasons.{word_of, word_text, from_text, by_text, rest_text, reason_text};

use crate::reasons::{Reason, ReasonWord};
use fh_base::Line;
use member_lines::named;

impl Reason {
    ghost use Rattle.std.specs.Prelude.{◌≡◌};
    ghost use Rattle.explain_model.specs.Reasons.{word_of};

    /// Its first word.
    pub fn word(&self) -> ReasonWord
        ensures { result ≡ word_of self.now }
    {
        match self {
            Reason::Other { .. } => ReasonWord::Other,
            Reason::Late { .. } => ReasonWord::Late,
            Reason::Early { .. } => ReasonWord::Early,
            Reason::Refused { .. } => ReasonWord::Refused,
            Reason::WrongWay { .. } => ReasonWord::WrongWay,
            Reason::Repeated { .. } => ReasonWord::Repeated,
            Reason::Unfinished { .. } => ReasonWord::Unfinished,
            Reason::CommandMismatch { .. } => ReasonWord::CommandMismatch,
            Reason::CommandLate { .. } => ReasonWord::CommandLate,
            Reason::CommandEarly { .. } => ReasonWord::CommandEarly,
            Reason::CommandRange { .. } => ReasonWord::CommandRange,
            Reason::CommandRepeat { .. } => ReasonWord::CommandRepeat,
            Reason::CommandOverlap { .. } => ReasonWord::CommandOverlap,
            Reason::CommandFull { .. } => ReasonWord::CommandFull,
            Reason::NoData { .. } => ReasonWord::NoData,
            Reason::NoCommand => ReasonWord::NoCommand,
        }
    }
}

/// The text of a word.
pub fn word_name(word: ReasonWord) -> &'static [u8]
    ensures text { result.now ≡ word_text word }
    ensures short { length result.now ≤ 16 }
{
    match word {
        ReasonWord::Other => b"other",
        ReasonWord::Late => b"late",
        ReasonWord::Early => b"early",
        ReasonWord::Refused => b"refused",
        ReasonWord::WrongWay => b"wrong_way",
        ReasonWord::Repeated => b"repeated",
        ReasonWord::Unfinished => b"unfinished",
        ReasonWord::CommandMismatch => b"command_mismatch",
        ReasonWord::CommandLate => b"command_late",
        ReasonWord::CommandEarly => b"command_early",
        ReasonWord::CommandRange => b"command_range",
        ReasonWord::CommandRepeat => b"command_repeat",
        ReasonWord::CommandOverlap => b"command_overlap",
        ReasonWord::CommandFull => b"command_full",
        ReasonWord::NoData => b"nodata",
        ReasonWord::NoCommand => b"nocommand",
    }
}

/// Appends the arrival that is the cause.
pub fn from_word(line: &mut Line, from: u32)
    requires { length line.old + 26 ≤ 512 }
    ensures text { line.new ≡ line.old ++ from_text from }
    ensures short { length line.new ≤ length line.old + 26 }
{
    named(line, b"from", u64::from(from));
}

// Appends a distance, and the arrival that is the cause.
fn by_words(line: &mut Line, by: u64, from: u32)
    requires { length line.old + 50 ≤ 512 }
    ensures text { line.new ≡ line.old ++ by_text by from }
    ensures short { length line.new ≤ length line.old + 50 }
{
    named(line, b"by", by);
    from_word(line, from);
}

// Appends what is after the first word.
fn rest_words(line: &mut Line, reason: &Reason)
    requires { length line.old + 80 ≤ 512 }
    ensures text { line.new ≡ line.old ++ rest_text reason.now }
    ensures short { length line.new ≤ length line.old + 80 }
{
    match *reason {
        Reason::Other { section, from } => {
            named(line, b"with", u64::from(section));
            from_word(line, from);
        }
        Reason::Late { by, from }
        | Reason::Early { by, from }
        | Reason::CommandLate { by, from }
        | Reason::CommandEarly { by, from } => by_words(line, by, from),
        Reason::Repeated { seq, from } => {
            named(line, b"seq", u64::from(seq));
            from_word(line, from);
        }
        Reason::Unfinished { seq, pieces, from } => {
            named(line, b"seq", u64::from(seq));
            named(line, b"pieces", pieces as u64);
            from_word(line, from);
        }
        Reason::Refused { from }
        | Reason::WrongWay { from }
        | Reason::CommandMismatch { from }
        | Reason::CommandRange { from }
        | Reason::CommandRepeat { from }
        | Reason::CommandOverlap { from }
        | Reason::CommandFull { from } => from_word(line, from),
        Reason::NoData { from: Some(from) } => from_word(line, from),
        Reason::NoData { from: None } | Reason::NoCommand => {}
    }
}

/// Appends a reason.
#[tactic(auto, unfolding(crate::specs::Reasons::reason_text))]
pub fn put_reason(line: &mut Line, reason: &Reason)
    requires { length line.old + 96 ≤ 512 }
    ensures text { line.new ≡ line.old ++ reason_text reason.now }
    ensures short { length line.new ≤ length line.old + 96 }
{
    line.text(word_name(reason.word()));
    rest_words(line, reason);
}
