//! The parts of all messages of a plan.
ghost use Rattle.std.specs.Prelude.{◌≡◌, ◌≤◌, ◌<◌, ◌^◌, List, map, IfOk};
ghost use Rattle.window_config.specs.Configs.{IsConfig};
ghost use Rattle.window_config.specs.declared.config.Config.{Config as SpecConfig};
ghost use Rattle.plan_model.specs.Packs.{parts_of};
ghost use Rattle.plan_model.specs.Sent.{SentFrame, sent};
ghost use Rattle.plan_model.specs.declared.lines.PlannedLine.{PlannedLine as SpecLine};
ghost use Rattle.du_scheduler.specs.Queues.{IsQueue, StandsFor, gap_of};
ghost use Rattle.plan_model.specs.SentOrder.{stream_place};
ghost use Rattle.du_scheduler.specs.Runs.{gap_ticks, turn_of};
ghost use Rattle.du_scheduler.specs.Kept.{placed_line};
ghost use Rattle.schedule_laws.specs.TabledPlans.{IsTabledPlan};
ghost use Rattle.fh_base.specs.Members.{IsIn};

use crate::kept::{PlacedLine, StreamParts};
use crate::queue::Queue;
use crate::queues::queue_of;
use crate::streams::add_endpoint;
use crate::turns::Turn;
use fh_base::NoMemory;
use plan_model::{Departures, PlannedLine, Stream};
use std::alloc::Global;
use window_config::Config;

/// The parts of all messages that the distributed unit sends for a plan: three streams of each endpoint, commands for the downlink,
/// commands for the uplink and data.
#[derive(Drop)]
pub struct Table {
    streams: Vec<StreamParts>,
}

/// The gap between the frames of a symbol, in ticks.
fn gap_ticks(config: &Config) -> u32
    requires { IsConfig config.now }
    ensures { result ≡ gap_ticks config.now }
{
    Departures::of(config, Stream::DownData).gap as u32
}

/// The place of a stream among those of its endpoint.
fn stream_place(stream: Stream) -> usize
    ensures { result ≡ stream_place stream }
{
    stream as usize
}

impl Table {
    ghost use Rattle.du_scheduler.specs.Tables.{IsTable, IsTurnOf};

    /// The table of a valid plan's lines, and the queue of its messages, which stands for all that the distributed unit sends.
    ///
    /// `NoMemory` where memory cannot be had.
    pub fn make(
        alloc: Global,
        config: &Config,
        lines: &[PlannedLine],
    ) -> Result<(Table, Queue), NoMemory>
        requires config { IsConfig config.now }
        requires plan { IsTabledPlan config.now lines.now }
        ensures table { IfOk result (λ r. IsTable config.now lines.now r.0) }
        ensures queue { IfOk result (λ r. IsQueue r.1) }
        ensures gap { IfOk result (λ r. gap_of r.1 ≡ gap_ticks config.now) }
        ensures stands { IfOk result (λ r. StandsFor r.1 (map turn_of (sent config.now lines.now))) }
    {
        let mut streams = Vec::new(alloc);
        let mut runs = Vec::new(alloc);
        for ep in 0..config.endpoints.as_slice().len() {
            add_endpoint(alloc, config, lines, ep, &mut streams, &mut runs)?;
        }
        let queue = queue_of(alloc, gap_ticks(config), &runs)?;
        Ok((Table { streams }, queue))
    }

    /// The parts of the message of a sent frame, in their order: for a command the line in its first symbol.
    pub fn message(&self, turn: &Turn) -> &[PlacedLine]
        requires { IsTurnOf self.now turn.now }
        ensures { (c : SpecConfig) → (ps : List SpecLine) → (f : SentFrame) → IsTable c ps self.now → IsIn f (sent c ps) → turn.now ≡ turn_of f
            → result.now ≡ map placed_line (parts_of f.message) }
    {
        let streams: &[StreamParts] = &self.streams;
        let stream = 3 * turn.endpoint as usize + stream_place(turn.stream);
        streams[stream].message(turn.number as usize)
    }
}
