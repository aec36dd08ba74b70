//! The messages of a stream, as a queue takes them.
ghost use Rattle.std.specs.Prelude.{◌≡◌, ℕ, ◌<◌, ◌≤◌, ◌^◌, [], length, map, IfOk, List};
ghost use Rattle.std.specs.List.{AllByRecursion};
ghost use Rattle.window_config.specs.declared.config.Config.{Config as SpecConfig};
ghost use Rattle.window_config.specs.declared.endpoints.EndpointConfig.{EndpointConfig as SpecEndpoint};
ghost use Rattle.plan_model.specs.Streams.{parts_in};
ghost use Rattle.plan_model.specs.declared.lines.PlannedLine.{PlannedLine as SpecLine};
ghost use Rattle.plan_model.specs.declared.streams.Stream.{Stream as SpecStream};
ghost use Rattle.du_scheduler.specs.Runs.{stream_runs};
ghost use Rattle.du_scheduler.specs.Parts.{IsTimed, timed};
ghost use Rattle.du_scheduler.specs.PlanRuns.{limits_of};
ghost use Rattle.schedule_laws.specs.MessageParts.{stream_begins};
ghost use Rattle.du_scheduler.specs.Ranges.{IsLimits, IsOpenMessage};
ghost use Rattle.du_scheduler.specs.Walks.{begins, run_from, walked};

use crate::complete::CompleteMessages;
use crate::limits::Limits;
use crate::open_messages::OpenMessage;
use crate::parts::TimedPart;
use crate::turns::{Run, Turn};
use fh_base::NoMemory;
use std::alloc::Global;

/// The messages of a stream, in their order.
#[derive(Drop)]
pub struct Messages {
    /// Each with all its frames.
    pub runs: Vec<Run>,
    /// The place of each one's first part among the parts of the stream.
    pub begins: Vec<u32>,
}

/// No messages yet, and room for so many.
fn with_room(alloc: Global, count: usize) -> Result<Messages, NoMemory>
    ensures runs { IfOk result (λ m. m.runs.items ≡ []) }
    ensures begins { IfOk result (λ m. m.begins.items ≡ []) }
{
    Ok(Messages {
        runs: Vec::with_capacity(alloc, count)?,
        begins: Vec::with_capacity(alloc, count)?,
    })
}

/// A message, which has this number, with all its frames.
fn run_from(limits: &Limits, number: u32, m: &OpenMessage) -> Run
    requires limits { IsLimits limits.now }
    requires message { IsOpenMessage limits.now m.now }
    ensures { result ≡ run_from limits.now number m.now }
{
    Run {
        turn: Turn {
            at: limits.departures.at(m.first.start, m.wait),
            endpoint: limits.endpoint,
            stream: limits.stream,
            number,
            sub: 0,
        },
        last: limits
            .departures
            .at(m.first.start, limits.departures.spread),
        left: limits.frames_of(m.size.bytes) as u8,
    }
}

/// The messages of an endpoint's stream, by the stream's parts in their order.
///
/// `NoMemory` where memory cannot be had.
pub fn stream_messages(
    alloc: Global,
    limits: &Limits,
    parts: &[TimedPart],
) -> Result<Messages, NoMemory>
    requires limits { IsLimits limits.now }
    requires parts { AllByRecursion IsTimed parts.now }
    requires few { length parts.now ≤ 2 ^ 24 }
    ensures walked { IfOk result (λ v. v.runs.items ≡ walked limits.now parts.now) }
    ensures runs { IfOk result (λ v. (c : SpecConfig) → (lines : List SpecLine) → (stream : SpecStream) → (ep : ℕ) → (e : SpecEndpoint)
        → limits.now ≡ limits_of c stream ep → parts.now ≡ map (timed stream) (parts_in lines stream ep e) → v.runs.items ≡ stream_runs c lines stream ep e) }
    ensures begun { IfOk result (λ v. v.begins.items ≡ begins limits.now parts.now) }
    ensures begins { IfOk result (λ v. (c : SpecConfig) → (lines : List SpecLine) → (stream : SpecStream) → (ep : ℕ) → (e : SpecEndpoint)
        → limits.now ≡ limits_of c stream ep → parts.now ≡ map (timed stream) (parts_in lines stream ep e) → v.begins.items ≡ stream_begins c lines stream ep e) }
{
    let mut messages = with_room(alloc, parts.len())?;
    let mut begin = 0;
    for message in CompleteMessages::of(limits, parts) {
        let number = messages.runs.len() as u32;
        messages.runs.push(run_from(limits, number, &message))?;
        messages.begins.push(begin)?;
        begin += message.size.parts as u32;
    }
    Ok(messages)
}
