// Under which counter a verdict is counted.
ghost use Rattle.std.specs.Prelude.{◌≡◌};
ghost use Rattle.unit_model.specs.Counts.{command_counter, data_counter, fragment_counter, block_counter};

use crate::{CommandVerdict, DataVerdict};
use bfp_codec::Wide;
use ecpri_fragments::Verdict;
use fault_counters::Counter;

/// The counter of a verdict on a section of a command.
pub fn command_counter(verdict: CommandVerdict) -> Counter
    ensures { result ≡ command_counter verdict }
{
    match verdict {
        CommandVerdict::Mismatch => Counter::CMismatch,
        CommandVerdict::Late => Counter::CLate,
        CommandVerdict::Early => Counter::CEarly,
        CommandVerdict::Range => Counter::CRange,
        CommandVerdict::Repeat => Counter::CRepeat,
        CommandVerdict::Overlap => Counter::COverlap,
        CommandVerdict::Full => Counter::CFull,
        CommandVerdict::Accepted => Counter::CAccepted,
    }
}

/// The counter of a verdict on a section of data.
pub fn data_counter(verdict: DataVerdict) -> Counter
    ensures { result ≡ data_counter verdict }
{
    match verdict {
        DataVerdict::Late => Counter::ULate,
        DataVerdict::Early => Counter::UEarly,
        DataVerdict::Repeat => Counter::URepeat,
        DataVerdict::Taken => Counter::UTaken,
    }
}

/// The counter of what became of a fragment.
pub fn fragment_counter(verdict: Verdict) -> Counter
    ensures { result ≡ fragment_counter verdict }
{
    match verdict {
        Verdict::Stored => Counter::FStored,
        Verdict::Whole => Counter::FWhole,
        Verdict::Repeat => Counter::FRepeat,
        Verdict::Stray => Counter::FStray,
        Verdict::TooLong => Counter::FLong,
    }
}

/// The counter of a cell that is reported, by whether its samples were received.
pub fn block_counter(block: Option<[Wide; 12]>) -> Counter
    ensures { result ≡ block_counter block }
{
    match block {
        Some(_) => Counter::Cells,
        None => Counter::Missing,
    }
}
