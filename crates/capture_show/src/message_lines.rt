// The lines of the other messages, of frames and of their faults.
ghost use Rattle.std.specs.Prelude.{◌≡◌, ◌∷◌, []};
ghost use Rattle.capture_records.specs.Records.{arrived_of};
ghost use Rattle.capture_show.specs.Messages.{delay_line, sized_line, broken_lines, frame_line};

use crate::line::{Shown, count, said, signed};
use crate::values::{Kind, Name, Word};
use capture_records::Record;
use delay_measure::DelayMessage;
use ecpri_frames::PduRefusal;

/// The line of a one-way delay measurement.
#[tactic(auto, unfolding(crate::specs::Messages::delay_line))]
pub fn delay_line(place: usize, m: DelayMessage) -> Shown
    ensures { result ≡ delay_line place m }
{
    Shown::of(
        Kind::Delay,
        &[
            count(Name::Place, place as u64),
            count(Name::Id, u64::from(m.id)),
            count(Name::Action, u64::from(m.action)),
            count(Name::Seconds, m.seconds),
            count(Name::Nanoseconds, u64::from(m.nanoseconds)),
            signed(Name::Comp, m.comp),
        ],
    )
}

/// The line of a message that is too short, or of another type, by its place, its type and its size.
#[tactic(auto, unfolding(crate::specs::Messages::sized_line))]
pub fn sized_line(kind: Kind, place: usize, message_type: u8, size: usize) -> Shown
    ensures { result ≡ sized_line kind place message_type size }
{
    Shown::of(
        kind,
        &[
            count(Name::Place, place as u64),
            count(Name::MessageType, u64::from(message_type)),
            count(Name::Size, size as u64),
        ],
    )
}

/// The line of a frame's fault.
#[tactic(auto, unfolding(crate::specs::Messages::broken_lines))]
pub fn broken_line(refusal: PduRefusal) -> Shown
    ensures { result ∷ [] ≡ broken_lines (Some refusal) }
{
    Shown::of(
        Kind::Broken,
        &[
            count(Name::Place, refusal.place as u64),
            said(Name::Why, Word::Frame(refusal.why)),
        ],
    )
}

/// The line of a record, the number-th from 1.
#[tactic(auto, unfolding(crate::specs::Messages::frame_line))]
pub fn frame_line(number: u64, r: &Record<'_>) -> Shown
    ensures { result ≡ frame_line number (arrived_of r.now) }
{
    Shown::of(
        Kind::Frame,
        &[
            count(Name::Number, number),
            said(Name::Way, Word::Way(r.side)),
            signed(Name::Ticks, r.at.0),
            count(Name::Bytes, r.frame.len() as u64),
        ],
    )
}
