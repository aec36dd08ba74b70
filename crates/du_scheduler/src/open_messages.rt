//! A message that may take more parts.
ghost use Rattle.std.specs.Prelude.{◌≡◌, ◌<◌, ◌≤◌, ◌^◌};
ghost use Rattle.du_scheduler.specs.OpenMessages.{same_place};

use crate::parts::TimedPart;
use plan_model::{Departures, MessageSize};

/// A message that may take more parts: its first part, how large it is, and how long after the first frame of its symbol its own
/// first one leaves.
#[derive(Clone, Copy, Debug, PartialEq, Eq)]
pub struct OpenMessage {
    pub first: TimedPart,
    pub size: MessageSize,
    pub wait: u64,
}

/// Whether two parts are of one slot and symbol.
fn same_place(a: &TimedPart, b: &TimedPart) -> bool
    ensures { result ≡ same_place a.now b.now }
{
    let same_slot = a.frame == b.frame && a.subframe == b.subframe && a.slot == b.slot;
    same_slot && a.symbol == b.symbol
}

impl OpenMessage {
    ghost use Rattle.du_scheduler.specs.OpenMessages.{alone, grown, next_to, takes_more};

    /// A message of one part.
    pub(crate) fn starts(part: &TimedPart, wait: u64) -> OpenMessage
        ensures { result ≡ alone part.now wait }
    {
        OpenMessage {
            first: *part,
            size: MessageSize::of_one(part.size as usize),
            wait,
        }
    }

    /// Whether it takes a part more: of its symbol, and where it has fewer parts than so many and room for it.
    pub(crate) fn takes(&self, pack: usize, part: &TimedPart) -> bool
        requires { self.now.size.bytes < 2 ^ 17 }
        ensures { result ≡ takes_more pack self.now part.now }
    {
        same_place(&self.first, part) && self.size.has_room(pack, part.size as usize)
    }

    /// The message with one part more.
    pub(crate) fn grown(&self, part: &TimedPart) -> OpenMessage
        requires bytes { self.now.size.bytes < 2 ^ 17 }
        requires parts { self.now.size.parts < 2 ^ 63 }
        ensures { result ≡ grown self.now part.now }
    {
        OpenMessage {
            size: self.size.larger(part.size as usize),
            ..*self
        }
    }

    /// The message of one part after this one, which so many frames carry.
    pub(crate) fn next_to(
        &self,
        departures: &Departures,
        frames: usize,
        part: &TimedPart,
    ) -> OpenMessage
        requires gap { departures.now.gap < 2 ^ 33 }
        requires spread { departures.now.spread < 2 ^ 33 }
        requires wait { self.now.wait ≤ departures.now.spread }
        requires frames { frames < 2 ^ 24 }
        ensures value { result ≡ next_to departures.now frames self.now part.now }
        ensures wait { result.wait ≤ departures.now.spread }
    {
        let wait = if same_place(part, &self.first) {
            departures.later(self.wait, frames)
        } else {
            0
        };
        OpenMessage::starts(part, wait)
    }
}
