// What a document says, and what is known of it while its lines are read.

use crate::delivered::{Deliveries, Delivery};
use air_source::{Side, Tone};
use delay_measure::Kind;
use eaxc_map::Widths;
use fh_base::{Bytes, List};
use window_config::{Config, Delays, EndpointList, PlanLine};

/// The delays between an antenna's connector and the edges that delay measurement stamps, as a unit's compensation: each from 0 to
/// 65,536,000,000, in units of 2^-16 ns.
#[derive(Clone, Copy, Debug, PartialEq, Eq)]
pub struct Comps {
    pub du_sending: i64,
    pub du_receiving: i64,
    pub ru_sending: i64,
    pub ru_receiving: i64,
}

/// How long frames take on their way where no `deliver` line says it of one frame: at most 3,000,000,000 ns. None where such frames
/// are lost.
#[derive(Clone, Copy, Debug, PartialEq, Eq)]
pub struct Transits {
    /// Frames of the C-plane and the U-plane to the radio unit.
    pub dl: Option<i64>,
    /// Frames of the C-plane and the U-plane to the distributed unit.
    pub ul: Option<i64>,
    /// Frames of delay measurement, both ways; at least 1 ns.
    pub m: i64,
}

/// A frame that arrives beside those that are sent.
#[derive(Drop)]
pub struct Injection {
    /// The unit at which it arrives.
    pub side: Side,
    /// When it arrives, from 0 to 1,000,000,000,000 ns from time 0.
    pub at: i64,
    /// At most 9,216 bytes.
    pub frame: Bytes,
}

/// A measurement of the delay between the two ends.
#[derive(Clone, Copy, Debug, PartialEq, Eq)]
pub struct Measure {
    /// The unit that begins it.
    pub side: Side,
    /// The measurement's id, which no other of the document has.
    pub id: u8,
    pub kind: Kind,
    /// When it begins, from 1,000,000 to 1,000,000,000,000 ns from time 0.
    pub at: i64,
}

/// What a document says.
#[derive(Drop)]
pub struct Document {
    /// What both units are made from.
    pub config: Config,
    /// The plan, in the order of its lines.
    pub plan: List<PlanLine>,
    /// The number of each line of the plan in the document, from 1.
    pub plan_lines: List<usize>,
    /// The samples that the distributed unit sends.
    pub source: Tone,
    /// The samples that the radio unit takes in.
    pub antenna: Tone,
    pub comps: Comps,
    pub transits: Transits,
    /// What becomes of single frames, in the order of their lines; no two speak of the same frame.
    pub deliveries: List<Delivery>,
    /// In the order of their lines.
    pub injections: List<Injection>,
    /// In the order of their lines.
    pub measures: List<Measure>,
}

/// What the configuration lines set.
#[derive(Clone, Copy)]
pub(crate) struct Settings {
    pub(crate) widths: Widths,
    pub(crate) delays: Delays,
    pub(crate) gap: i64,
    pub(crate) fragment: usize,
    pub(crate) pack: usize,
    pub(crate) source: Tone,
    pub(crate) antenna: Tone,
    pub(crate) comps: Comps,
    pub(crate) transits: Transits,
}

/// The grammar that line 1 names.
#[derive(Clone, Copy)]
pub(crate) enum Version {
    One,
    Two,
    Three,
}

/// What the lines said so far.
#[derive(Drop)]
pub(crate) struct Reading {
    pub(crate) version: Version,
    pub(crate) settings: Settings,
    /// Which configuration keywords are listed already, by their numbers.
    pub(crate) seen: [bool; 18],
    pub(crate) endpoints: EndpointList,
    pub(crate) plan: List<PlanLine>,
    pub(crate) plan_lines: List<usize>,
    pub(crate) deliveries: Deliveries,
    pub(crate) injections: List<Injection>,
    pub(crate) measures: List<Measure>,
}
