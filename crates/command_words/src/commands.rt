// What the words of the command line may ask for.
use pcap_frames::Whose;

/// What the words ask for.
#[derive(Clone, Copy, Debug, PartialEq, Eq)]
pub enum Command {
    /// `replay`: the report of a document.
    Replay,
    /// `summary`: a line for each run of a document's cells, the delays and the counters.
    Summary,
    /// `capture`: the frames of a document as they arrive.
    Capture,
    /// `show`: the fields of a capture's frames, as lines or, with `--json`, as JSON.
    Show {
        json: bool,
    },
    /// `explain`: what became of each frame and section of a document, and why cells are silent.
    Explain {
        /// Whether only what went wrong is told: `--faults`.
        faults: bool,
    },
    /// `sent`: the frames that a document's plan sends to the radio unit.
    Sent,
    /// `windows`: the windows, the rings and the check of a document.
    Windows,
    /// `fit`: what breaks a document's windows, and the greatest windows that fit.
    Fit,
    /// `generate SEED SLOTS`: a document of its own. Nothing is read.
    Generate {
        seed: u32,
        /// From 1 to 400.
        slots: u32,
    },
    /// `trial SEED SLOTS`: the counters of that document's replay. Nothing is read.
    Trial {
        seed: u32,
        /// From 1 to 400.
        slots: u32,
    },
    /// `shared COUNT STEP`: what the radio units of a shared cell do with a document.
    Shared {
        /// How many units share the cell, from 2 to 8.
        count: u8,
        /// How much further away each unit is than the one before it, from 0 to 1,000,000 ns.
        step: u32,
    },
    /// `idle FIRST LAST MIN`: when a document's radio unit radiates nothing, and plan lines for slots that nobody touches.
    Idle {
        /// The first frame, from 1.
        first: u32,
        /// The last frame, at most 9 after the first, and at most 99,999.
        last: u32,
        /// How many symbols a span has at least, from 1 to 9,999.
        min: u32,
    },
    /// `draw grid FRAME SUBFRAME COUNT`: the resource grid of an explained document, as a picture.
    DrawGrid {
        /// The first frame, at most 99,999.
        frame: u32,
        /// The first subframe, at most 9.
        subframe: u8,
        /// How many subframes, from 1 to 10.
        count: u8,
    },
    /// `draw windows`: the windows of an explained document and what arrived in them, as a picture.
    DrawWindows,
    /// `pcap WAY START`, `pcap ADDRESS START`: the eCPRI frames of a pcap file as lines of a document.
    Pcap {
        /// Whose frames, and the units that they go to.
        whose: Whose,
        /// The time of the first frame, from 0 to 1,000,000,000,000 ns.
        start: u64,
    },
    /// `pcap-capture WAY START`, `pcap-capture ADDRESS START`: the same frames as a capture.
    PcapCapture {
        /// Whose frames, and the units that they go to.
        whose: Whose,
        /// The time of the first frame, from 0 to 1,000,000,000,000 ns.
        start: u64,
    },
}
