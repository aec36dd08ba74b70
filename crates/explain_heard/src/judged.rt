// What lines, margins and reasons need of what a unit judged of a part of a frame.

use crate::heard::{FragmentHeard, MessageHeard};
use explain_model::{Timing, WholeAnswer};
use fh_base::{PrbSpan, Slot};
use unit_model::{Allocation, CommandVerdict, DataVerdict};

/// A section of a command.
#[derive(Clone, Copy)]
pub struct CommandJudged {
    /// What it names.
    pub allocation: Allocation,
    pub verdict: CommandVerdict,
    /// How far it is from the ends of its window.
    pub timing: Timing,
}

/// A whole message of data of which no section is read.
#[derive(Clone, Copy)]
pub struct WholeJudged {
    /// The endpoint's index in the configuration.
    pub ep: usize,
    /// The eAxC id.
    pub id: u16,
    /// The slot and the symbol that its header names, if it names one.
    pub named: Option<(Slot, u8)>,
    /// How many fragments it has.
    pub pieces: usize,
    /// How many bytes they have together.
    pub bytes: usize,
    pub answer: WholeAnswer,
}

/// A section of data.
#[derive(Clone, Copy)]
pub struct DataJudged {
    /// The endpoint's index in the configuration.
    pub ep: usize,
    /// The eAxC id.
    pub id: u16,
    /// The slot of its message.
    pub slot: Slot,
    /// Its own symbol.
    pub symbol: u8,
    /// The section id.
    pub section: u16,
    /// The PRBs that it covers.
    pub prbs: PrbSpan,
    pub verdict: DataVerdict,
    /// How far it is from the ends of its window.
    pub timing: Timing,
}

/// What a unit judged of a part of a frame.
#[derive(Clone, Copy)]
pub enum Judged {
    /// A complete message was received.
    Message(MessageHeard),
    /// A section of a command has a verdict.
    Command(CommandJudged),
    /// A fragment of data has a verdict.
    Fragment(FragmentHeard),
    /// A whole message of data is refused, or of the other unit's direction.
    Whole(WholeJudged),
    /// A section of data has a verdict.
    Data(DataJudged),
}
