//! The parts of a stream's messages.
ghost use Rattle.std.specs.Prelude.{◌≡◌, ◌<◌, ◌^◌, map, IfOk};
ghost use Rattle.std.specs.List.{AllByRecursion};
ghost use Rattle.du_scheduler.specs.Kept.{placed_line_of};

use crate::parts::TimedPart;
use fh_base::NoMemory;
use std::alloc::Global;

/// A part of a message: a line in one of its symbols.
#[derive(Clone, Copy, Debug, PartialEq, Eq)]
pub struct PlacedLine {
    /// The line's place in the plan, from 0.
    pub line: u32,
    pub symbol: u8,
}

/// The parts of an endpoint's stream, in their order, and the place among them where each message begins.
#[derive(Drop)]
pub(crate) struct StreamParts {
    pub(crate) parts: Vec<PlacedLine>,
    pub(crate) begins: Vec<u32>,
}

/// What is kept of parts.
pub(crate) fn placed_lines(alloc: Global, parts: &[TimedPart]) -> Result<Vec<PlacedLine>, NoMemory>
    requires { AllByRecursion (λ p. p.line < 2 ^ 32) parts.now }
    ensures { IfOk result (λ v. v.items ≡ map placed_line_of parts.now) }
{
    let mut lines = Vec::with_capacity(alloc, parts.len())?;
    for part in parts {
        lines.push(PlacedLine {
            line: part.line as u32,
            symbol: part.symbol,
        })?;
    }
    Ok(lines)
}

impl StreamParts {
    ghost use Rattle.du_scheduler.specs.Kept.{HasMessage, end_of, message_in};

    /// The place after a message's last part.
    fn end_of(&self, number: usize) -> usize
        requires { number < 2 ^ 32 }
        ensures { result ≡ end_of self.now number }
    {
        match self.begins.get(number + 1) {
            Some(next) => *next as usize,
            None => self.parts.len(),
        }
    }

    /// The parts of the message with this number.
    pub(crate) fn message(&self, number: usize) -> &[PlacedLine]
        requires number { number < 2 ^ 32 }
        requires message { HasMessage self.now number }
        ensures { result.now ≡ message_in self.now number }
    {
        let from = self.begins[number] as usize;
        &self.parts[from..self.end_of(number)]
    }
}
