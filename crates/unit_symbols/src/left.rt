// What is left of a symbol's messages.
ghost use Rattle.std.specs.Prelude.{◌≡◌, ◌≤◌, List, filter, length, map, nat_lt, reverse, slice_get};
ghost use Rattle.unit_model.specs.Starts.{jobs_at};
ghost use Rattle.unit_model.specs.declared.jobs.UplinkJob.{UplinkJob};
ghost use Rattle.unit_symbols.specs.Cursors.{left_jobs, rest_of};
ghost use Rattle.unit_model.specs.declared.uplink.TheConstants.{SLOT_SECTIONS};

use crate::cursor::JobCursor;
use crate::sending::{count_sending, job_at};
use unit_model::{Allocation, SymbolStart, UplinkJob, comes_before};

/// How many of a symbol's messages were given, or none where all were, however many they are.
pub(crate) fn given_of(cursor: &JobCursor, m: &SymbolStart) -> Option<usize>
    ensures { (jobs : List UplinkJob) → left_jobs cursor.now m.now jobs ≡ rest_of result jobs }
{
    if m.start.0 < cursor.since.0 {
        return None;
    }
    match &cursor.last {
        None => Some(0),
        Some(last) => {
            if comes_before(m, last) {
                None
            } else if comes_before(last, m) {
                Some(0)
            } else {
                Some(cursor.given)
            }
        }
    }
}

/// Whether one of a symbol's messages is left, where these are the accepted uplink sections of its slot, the newest last.
pub(crate) fn has_left(cursor: &JobCursor, m: &SymbolStart, uplink: &[Allocation]) -> bool
    ensures { result ≡ nat_lt 0 (length (left_jobs cursor.now m.now (jobs_at (reverse uplink.now) m.now))) }
{
    match given_of(cursor, m) {
        None => false,
        Some(given) => given < count_sending(m, uplink),
    }
}

/// The first of a symbol's messages that is left.
pub(crate) fn first_left(
    cursor: &JobCursor,
    m: &SymbolStart,
    uplink: &[Allocation],
) -> Option<UplinkJob>
    requires { length uplink.now ≤ SLOT_SECTIONS }
    ensures { result ≡ slice_get (left_jobs cursor.now m.now (jobs_at (reverse uplink.now) m.now)) 0 }
{
    let given = given_of(cursor, m)?;
    job_at(m, uplink, given)
}
