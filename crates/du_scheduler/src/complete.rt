//! The complete messages of a stream's parts.
ghost use Rattle.std.specs.Prelude.{IfSome};
ghost use Rattle.std.proofs.Props.{props};
ghost use Rattle.std.specs.List.{AllByRecursion};
ghost use Rattle.du_scheduler.specs.Parts.{IsTimed};
ghost use Rattle.du_scheduler.specs.Ranges.{IsLimits, IsOpenMessage};

use crate::limits::Limits;
use crate::open_messages::OpenMessage;
use crate::parts::TimedPart;

/// The complete messages of a stream's parts, in their order.
#[derive(Clone, Copy)]
pub struct CompleteMessages<'a> {
    limits: &'a Limits,
    /// The message that takes the next parts.
    message: Option<OpenMessage>,
    rest: &'a [TimedPart],
    ghost cut: { IsLimits limits.now } by { Prim.hlevel props },
    ghost opened: { IfSome message (IsOpenMessage limits.now) } by { Prim.hlevel props },
    ghost timed: { AllByRecursion IsTimed rest.now } by { Prim.hlevel props },
}

impl<'a> CompleteMessages<'a> {
    ghost use Rattle.std.specs.Prelude.{◌≡◌};
    ghost use Rattle.du_scheduler.specs.Walks.{complete, left_of};

    /// Those of parts in their order.
    pub fn of(limits: &'a Limits, parts: &'a [TimedPart]) -> CompleteMessages<'a>
        requires limits { IsLimits limits.now }
        requires parts { AllByRecursion IsTimed parts.now }
        ensures { left_of result ≡ complete limits.now parts.now }
    {
        match parts.split_first() {
            Some((first, rest)) => CompleteMessages {
                limits,
                message: Some(OpenMessage::starts(first, 0)),
                rest,
            },
            None => CompleteMessages {
                limits,
                message: None,
                rest: parts,
            },
        }
    }
}

impl<'a> Iterator for CompleteMessages<'a> {
    ghost use Rattle.std.specs.Iterator.{YieldsFirst, item_count};
    ghost use Rattle.du_scheduler.specs.Walks.{left_of};

    type Item = OpenMessage;

    ghost next_gives = { YieldsFirst left_of };

    ghost remaining = { item_count left_of };

    fn next(&mut self) -> Option<OpenMessage> {
        let mut message = self.message?;
        while let Some((part, rest)) = self.rest.split_first() {
            self.rest = rest;
            if !message.takes(self.limits.pack, part) {
                let frames = self.limits.frames_of(message.size.bytes);
                self.message = Some(message.next_to(&self.limits.departures, frames, part));
                return Some(message);
            }
            message = message.grown(part);
        }
        self.message = None;
        Some(message)
    }
}
