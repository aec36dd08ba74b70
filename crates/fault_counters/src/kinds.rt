// What is counted, and under which name.
ghost use Rattle.std.specs.Prelude.{◌≡◌, ℕ, ◌<◌, ◌≤◌, length, slice_get};
ghost use Rattle.fault_counters.specs.Names.{name_of, index_of, all_counters};

/// What a unit counts of the frames, messages, fragments, sections and cells that it treats, in the
/// order in which the counters are printed.
#[derive(Clone, Copy, Debug, PartialEq, Eq)]
pub enum Counter {
    /// Frames, each one eCPRI PDU, that arrived.
    Frames,
    /// Frames that spell no PDU.
    FramesRefused,
    /// Whole messages of the frames.
    Messages,
    /// Messages of a type other than 0, 2 and 5.
    OtherType,
    /// Messages of type 5, one-way delay measurement.
    Delay,
    /// Messages whose payload has under 4 bytes.
    Short,
    /// Messages with an id that no endpoint has.
    UnknownEndpoint,
    /// Messages of the other unit's direction.
    WrongWay,
    /// C-plane messages that are fragmented or that the layout refuses.
    CRefused,
    /// C-plane sections of a type or numerology other than the endpoint's.
    CMismatch,
    /// C-plane sections after their window.
    CLate,
    /// C-plane sections before their window.
    CEarly,
    /// C-plane sections beyond the carrier's PRBs.
    CRange,
    /// C-plane sections whose elements are all claimed under their id.
    CRepeat,
    /// C-plane sections that touch what is claimed.
    COverlap,
    /// Uplink C-plane sections beyond the most of a slot.
    CFull,
    /// C-plane sections that were accepted.
    CAccepted,
    /// Fragments that were stored.
    FStored,
    /// Fragments that made their message whole.
    FWhole,
    /// Fragments that are stored already, or of a message that is complete.
    FRepeat,
    /// Fragments beyond the last one of their message, or a last one before others.
    FStray,
    /// Fragments with which the message would be too long.
    FLong,
    /// Whole U-plane messages that the layout refuses.
    URefused,
    /// U-plane sections after their window.
    ULate,
    /// U-plane sections before their window.
    UEarly,
    /// U-plane sections each of whose cells has its block.
    URepeat,
    /// U-plane sections that gave a cell its block.
    UTaken,
    /// Cells that were reported with samples.
    Cells,
    /// Cells that were reported as missing.
    Missing,
    /// Delay measurement messages with under 20 bytes.
    DelayShort,
    /// Delay measurement messages that fit no exchange.
    DelayUnknown,
    /// Delay measurement messages that were received again.
    DelayRepeat,
    /// Delays that were measured.
    DelayResult,
}

impl Counter {
    /// All counters in their order, each once: every counter is at its own index.
    pub fn all() -> [Counter; 33]
        ensures order { result ≡ all_counters }
        ensures each { (c : Counter) → slice_get result (index_of c) ≡ Some c }
    {
        [
            Counter::Frames,
            Counter::FramesRefused,
            Counter::Messages,
            Counter::OtherType,
            Counter::Delay,
            Counter::Short,
            Counter::UnknownEndpoint,
            Counter::WrongWay,
            Counter::CRefused,
            Counter::CMismatch,
            Counter::CLate,
            Counter::CEarly,
            Counter::CRange,
            Counter::CRepeat,
            Counter::COverlap,
            Counter::CFull,
            Counter::CAccepted,
            Counter::FStored,
            Counter::FWhole,
            Counter::FRepeat,
            Counter::FStray,
            Counter::FLong,
            Counter::URefused,
            Counter::ULate,
            Counter::UEarly,
            Counter::URepeat,
            Counter::UTaken,
            Counter::Cells,
            Counter::Missing,
            Counter::DelayShort,
            Counter::DelayUnknown,
            Counter::DelayRepeat,
            Counter::DelayResult,
        ]
    }

    /// The name under which the counter is printed, at most 16 bytes.
    pub fn name(self) -> &'static str
        ensures name { result.now ≡ name_of self }
        ensures short { length result.now ≤ 16 }
    {
        match self {
            Counter::Frames => "frames",
            Counter::FramesRefused => "frames_refused",
            Counter::Messages => "messages",
            Counter::OtherType => "other_type",
            Counter::Delay => "delay",
            Counter::Short => "short",
            Counter::UnknownEndpoint => "unknown_endpoint",
            Counter::WrongWay => "wrong_way",
            Counter::CRefused => "c_refused",
            Counter::CMismatch => "c_mismatch",
            Counter::CLate => "c_late",
            Counter::CEarly => "c_early",
            Counter::CRange => "c_range",
            Counter::CRepeat => "c_repeat",
            Counter::COverlap => "c_overlap",
            Counter::CFull => "c_full",
            Counter::CAccepted => "c_accepted",
            Counter::FStored => "f_stored",
            Counter::FWhole => "f_whole",
            Counter::FRepeat => "f_repeat",
            Counter::FStray => "f_stray",
            Counter::FLong => "f_long",
            Counter::URefused => "u_refused",
            Counter::ULate => "u_late",
            Counter::UEarly => "u_early",
            Counter::URepeat => "u_repeat",
            Counter::UTaken => "u_taken",
            Counter::Cells => "cells",
            Counter::Missing => "missing",
            Counter::DelayShort => "delay_short",
            Counter::DelayUnknown => "delay_unknown",
            Counter::DelayRepeat => "delay_repeat",
            Counter::DelayResult => "delay_result",
        }
    }

    // its place among all counters
    pub(crate) fn index(self) -> usize
        ensures index { result ≡ index_of self }
        ensures below { result < 33 }
    {
        self as usize
    }
}
