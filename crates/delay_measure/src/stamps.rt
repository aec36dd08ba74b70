// Time stamps, and what they give.
ghost use Rattle.std.specs.Prelude.{◌≡◌, ◌<◌, ◌≤◌, ◌≤ℤ◌, ◌^◌, pos, neg_ℤ};
ghost use Rattle.delay_measure.specs.Stamps.{sending_stamp, receiving_stamp, delay_between, stamped, blank};
ghost use Rattle.delay_measure.specs.Kept.{IsInRange};

use crate::edge::Compensation;
use crate::message::DelayMessage;
use fh_base::Ticks;

/// The greatest compensation, 1 ms, in units of 2^-16 ns.
pub const MOST_COMPENSATION: u64 = 65_536_000_000;

/// A time stamp in whole nanoseconds, and its compensation in units of 2^-16 ns.
#[derive(Clone, Copy, Debug, PartialEq, Eq)]
pub struct Stamp {
    pub nanoseconds: u64,
    pub comp: i64,
}

/// The stamp of a message that is sent at a time, in ticks from 0 to 2^56, with a compensation from 0 to 1 ms: the
/// time less the compensation, rounded down to whole nanoseconds, or 0 where that is below 0.
pub(crate) fn stamp_sent(at: Ticks, comp: Compensation) -> Stamp
    requires range { IsInRange comp }
    requires low { pos 0 ≤ℤ at.0 }
    requires high { at.0 ≤ℤ pos (2 ^ 56) }
    ensures { result ≡ sending_stamp at.0 comp.sending }
{
    let time = at.0.unsigned_abs() * 128;
    let less = comp.sending.unsigned_abs() * 3;
    Stamp {
        nanoseconds: time.saturating_sub(less) / 196_608,
        comp: comp.sending,
    }
}

/// The stamp of a message that is received at a time, in ticks from 0 to 2^56, with a compensation from 0 to 1 ms: the
/// time and the compensation together, rounded down to whole nanoseconds.
pub(crate) fn stamp_received(at: Ticks, comp: Compensation) -> Stamp
    requires range { IsInRange comp }
    requires low { pos 0 ≤ℤ at.0 }
    requires high { at.0 ≤ℤ pos (2 ^ 56) }
    ensures { result ≡ receiving_stamp at.0 comp.receiving }
{
    let time = at.0.unsigned_abs() * 128;
    let more = comp.receiving.unsigned_abs() * 3;
    Stamp {
        nanoseconds: (time + more) / 196_608,
        comp: comp.receiving,
    }
}

/// The delay, in units of 2^-16 ns, of a message that was sent at `sent` and received at `received` nanoseconds, with
/// the compensations of both ends.
pub(crate) fn delay(sent: u128, sent_comp: i64, received: u128, received_comp: i64) -> i128
    requires sent { sent < 2 ^ 95 }
    requires received { received < 2 ^ 95 }
    ensures { result ≡ delay_between sent sent_comp received received_comp }
{
    let sent = (sent * 65_536) as i128;
    let received = (received * 65_536) as i128;
    (received - received_comp as i128) - (sent + sent_comp as i128)
}

/// A message that carries a stamp.
pub(crate) fn with_stamp(id: u8, action: u8, stamp: Stamp) -> DelayMessage
    ensures message { result ≡ stamped id action stamp }
    ensures fits { result.seconds < 2 ^ 48 }
{
    DelayMessage {
        id,
        action,
        seconds: stamp.nanoseconds / 1_000_000_000,
        nanoseconds: (stamp.nanoseconds % 1_000_000_000) as u32,
        comp: stamp.comp,
    }
}

/// A message without a stamp: its timestamp and compensation are 0.
pub(crate) fn without_stamp(id: u8, action: u8) -> DelayMessage
    ensures { result ≡ blank id action }
{
    DelayMessage {
        id,
        action,
        seconds: 0,
        nanoseconds: 0,
        comp: 0,
    }
}
