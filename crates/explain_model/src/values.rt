// What the lines of an explanation say.

use crate::places::{Clash, MessagePlace, PrbRun, SymbolPlace, Timing};
use crate::reasons::{Reason, ReasonWord};
use air_source::Side;
use cplane_sections::CRefusal;
use ecpri_fragments::Verdict;
use ecpri_frames::PduRefusal;
use fault_counters::Counter;
use fh_base::{Slot, Ticks};
use unit_model::{CommandVerdict, DataVerdict};
use uplane_sections::URefusal;
use window_config::{EndpointConfig, Range};

/// A window of a unit.
#[derive(Clone, Copy, Debug, PartialEq, Eq)]
pub enum WindowName {
    T1aUp,
    T1aCpDl,
    T1aCpUl,
    T2aUp,
    T2aCpDl,
    T2aCpUl,
    Ta3,
    Ta4,
}

/// What becomes of a message of type 2.
#[derive(Clone, Copy, Debug, PartialEq, Eq)]
pub enum CommandAnswer {
    /// Its sections are read.
    Read,
    /// It is one of several fragments.
    Fragmented,
    /// The layout refuses it.
    Refused(CRefusal),
    /// It was received at the distributed unit.
    WrongWay,
}

/// What becomes of a whole message of data of which no section is read.
#[derive(Clone, Copy, Debug, PartialEq, Eq)]
pub enum WholeAnswer {
    /// The layout refuses it.
    Refused(URefusal),
    /// It has the direction of the other unit.
    WrongWay,
}

/// A section of a command.
#[derive(Clone, Copy)]
pub struct ControlLine {
    /// The number of the arrival.
    pub number: u32,
    /// The slot of the header, and the section's own symbol.
    pub place: SymbolPlace,
    /// The section id.
    pub section: u16,
    /// startPrb.
    pub prb: u16,
    /// numPrb, 0 for all.
    pub num: u16,
    /// numSymbol.
    pub symbols: u8,
    /// reMask.
    pub mask: u16,
    /// Whether it speaks of the uplink.
    pub uplink: bool,
    /// Whether it is of section type 0.
    pub idle: bool,
    pub verdict: CommandVerdict,
    pub timing: Timing,
    /// What it overlaps first.
    pub clash: Option<Clash>,
}

/// A whole message of data of which no section is read.
#[derive(Clone, Copy)]
pub struct WholeLine {
    /// The number of the arrival that made it whole.
    pub number: u32,
    /// The eAxC id.
    pub id: u16,
    /// The slot and the symbol that its header names, if it names one.
    pub named: Option<(Slot, u8)>,
    /// How many fragments it has.
    pub pieces: usize,
    /// How many bytes they have together.
    pub bytes: usize,
    pub answer: WholeAnswer,
}

/// A section of data.
#[derive(Clone, Copy)]
pub struct DataLine {
    /// The number of the arrival that made its message whole.
    pub number: u32,
    /// The slot of the message, and the section's own symbol.
    pub place: SymbolPlace,
    /// The section id.
    pub section: u16,
    /// The first PRB that it covers.
    pub prb: u16,
    /// How many PRBs it covers.
    pub num: u16,
    pub verdict: DataVerdict,
    pub timing: Timing,
    /// How many of its cells had no block before, where not all of them.
    pub fresh: Option<u16>,
}

/// What a run of cells shows.
#[derive(Clone, Copy, Debug, PartialEq, Eq)]
pub enum CellWord {
    /// The samples of a message that this arrival made whole.
    Shown { from: u32 },
    /// Nothing.
    Missing,
}

/// The class of sections that a margin is of.
#[derive(Clone, Copy, Debug, PartialEq, Eq)]
pub enum MarginClass {
    /// Downlink commands.
    Down,
    /// Uplink commands.
    Up,
    /// Data.
    Data,
}

/// How near to their windows' ends sections were received, in whole nanoseconds.
#[derive(Clone, Copy)]
pub struct Margin {
    /// How many were on time.
    pub ontime: u64,
    /// The least of each of their distances.
    pub least: Timing,
    /// How many were late.
    pub late: u64,
    /// By how much at most.
    pub late_by: u64,
    /// How many were early.
    pub early: u64,
    /// By how much at most.
    pub early_by: u64,
}

/// A line of an explanation.
#[derive(Clone, Copy)]
pub enum ExplainLine {
    /// The version of the lines, and whether the text is that of the faults.
    Head {
        faults: bool,
    },
    /// A window, in whole nanoseconds.
    Window {
        name: WindowName,
        range: Range,
    },
    /// An endpoint.
    Endpoint(EndpointConfig),
    /// An arrival.
    Frame {
        number: u32,
        side: Side,
        at: Ticks,
        bytes: usize,
        refusal: Option<PduRefusal>,
    },
    /// A message of type 5.
    Measure {
        number: u32,
        place: usize,
        size: usize,
    },
    /// A message of another type than 0, 2 and 5.
    Other {
        number: u32,
        place: usize,
        kind: u8,
        size: usize,
    },
    /// A message whose payload is too short for its type.
    Short {
        number: u32,
        place: usize,
        kind: u8,
        size: usize,
    },
    /// A message with an id that no endpoint has.
    Unknown {
        message: MessagePlace,
        kind: u8,
    },
    /// A message of type 2.
    Command {
        message: MessagePlace,
        answer: CommandAnswer,
    },
    /// A section of a command.
    Control(ControlLine),
    /// A fragment of data.
    Fragment {
        message: MessagePlace,
        bytes: usize,
        verdict: Verdict,
    },
    /// A whole message of data of which no section is read.
    Whole(WholeLine),
    /// A section of data.
    Data(DataLine),
    /// A run of cells.
    Cells {
        run: PrbRun,
        mask: u16,
        word: CellWord,
    },
    /// A measured delay, in units of 2^-16 ns.
    Delay {
        at: Ticks,
        side: Side,
        id: u8,
        value: i128,
    },
    /// Why cells are missing.
    WhyMissing {
        run: PrbRun,
        mask: u16,
        reason: Reason,
    },
    /// Why elements of a line of the plan are silent.
    WhySilent {
        run: PrbRun,
        mask: u16,
        /// The line of the document.
        line: u64,
        reason: Reason,
    },
    /// Blocks that no cell shows, of a message that this arrival made whole.
    Unused {
        run: PrbRun,
        from: u32,
    },
    /// How near to its windows' ends an endpoint's sections of a class were received.
    Margin {
        side: Side,
        class: MarginClass,
        id: u16,
        margin: Margin,
    },
    /// How many cells are shown.
    ShownCells {
        side: Side,
        id: u16,
        cells: u64,
    },
    /// How many cells are missing for a reason.
    MissingCells {
        side: Side,
        id: u16,
        word: ReasonWord,
        cells: u64,
    },
    /// How many PRBs have silent elements for a reason.
    SilentPrbs {
        side: Side,
        id: u16,
        word: ReasonWord,
        prbs: u64,
    },
    /// A counter.
    Count {
        side: Side,
        counter: Counter,
        value: u64,
    },
    /// The last line.
    End,
}
