// What a unit judged of a part of a frame, as far as lines and reasons need it.

use air_source::Side;
use ecpri_fragments::{SeqField, Verdict};
use explain_model::{CommandAnswer, WholeAnswer};
use fh_base::Ticks;
use unit_model::{CommandVerdict, ControlSection, DataHeading, DataVerdict};
use window_config::EndpointConfig;

/// What a whole message of a frame is to its unit.
#[derive(Clone, Copy)]
pub enum MessageWord {
    /// A one-way delay measurement.
    Measure,
    /// A message of another type than 0, 2 and 5.
    Other,
    /// Its payload is too short for its type.
    Short,
    /// No endpoint has its id.
    Unknown {
        id: u16,
        seq: SeqField,
    },
    /// A command.
    Command {
        id: u16,
        seq: SeqField,
        answer: CommandAnswer,
    },
    /// A fragment of data, which is judged after it.
    Data,
}

/// A whole message of a frame.
#[derive(Clone, Copy)]
pub struct MessageHeard {
    /// The byte of the frame where its header begins.
    pub place: usize,
    /// Its type.
    pub kind: u8,
    /// The size of its payload.
    pub size: usize,
    pub word: MessageWord,
}

/// A fragment of data.
#[derive(Clone, Copy)]
pub struct FragmentHeard {
    /// The endpoint's index in the configuration.
    pub ep: usize,
    pub endpoint: EndpointConfig,
    /// When it arrived.
    pub at: Ticks,
    pub seq: SeqField,
    /// How many bytes it has.
    pub bytes: usize,
    /// Its first eight bytes; a byte that it has not is 0.
    pub start: [u8; 8],
    pub verdict: Verdict,
}

/// A whole message of data of which no section is read.
#[derive(Clone, Copy)]
pub struct WholeHeard {
    /// The endpoint's index in the configuration.
    pub ep: usize,
    pub endpoint: EndpointConfig,
    /// When the last of its fragments arrived.
    pub last: Ticks,
    /// How many fragments it has.
    pub pieces: usize,
    /// How many bytes they have together.
    pub bytes: usize,
    /// The first four of these bytes; a byte that it has not is 0.
    pub start: [u8; 4],
    pub answer: WholeAnswer,
}

/// What a unit judged of a part of a frame.
#[derive(Clone, Copy)]
pub enum Heard {
    /// A complete message was received.
    Message(MessageHeard),
    /// A section of a command has a verdict.
    Command {
        section: ControlSection,
        verdict: CommandVerdict,
    },
    /// A fragment of data has a verdict.
    Fragment(FragmentHeard),
    /// A whole message of data is refused, or of the other unit's direction.
    Whole(WholeHeard),
    /// A section of data has a verdict.
    Data {
        heading: DataHeading,
        verdict: DataVerdict,
    },
}
