// How far the messages of a radio unit were given.
use fh_base::Ticks;
use unit_model::{SymbolStart, UplinkJob};

/// How far the uplink messages that a radio unit is to send were given: all of symbols that start before `since`, all of the
/// symbols that are before `last`, and `given` of `last`.
#[derive(Clone, Copy, Debug, PartialEq, Eq)]
pub struct JobCursor {
    pub since: Ticks,
    pub last: Option<SymbolStart>,
    pub given: usize,
}

/// The first message that was not given.
#[derive(Clone, Copy, Debug, PartialEq, Eq)]
pub struct NextJob {
    /// Its symbol.
    pub symbol: SymbolStart,
    pub job: UplinkJob,
}
