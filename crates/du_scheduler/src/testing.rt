// The tests of a whole plan.
ghost use Rattle.std.specs.Prelude.{◌≡◌, ◌<◌, All, IfOk, None, length};
ghost use Rattle.std.specs.List.{AllByRecursion};
ghost use Rattle.window_config.specs.Configs.{IsConfig};
ghost use Rattle.window_config.specs.Limits.{IsWithinLimits};
ghost use Rattle.window_config.specs.Plans.{IsPlanLine};
ghost use Rattle.window_config.specs.declared.endpoints.EndpointConfig.{EndpointConfig as SpecEndpoint};
ghost use Rattle.plan_model.specs.Dense.{dense, dense_from, dense_in, lesser, sendings};
ghost use Rattle.plan_model.specs.Valid.{plan_refusal};
ghost use Rattle.du_scheduler.specs.Answers.{Answers};
ghost use Rattle.schedule_laws.specs.DenseWays.{distance_of, stream_of};
ghost use Rattle.schedule_laws.specs.PlacedLines.{ArePlaced, HasEndpoint, IsPlaced};

use crate::judging::judge_lines;
use crate::limits::Limits;
use crate::parts::parts_of;
use crate::placing::place_lines;
use crate::walking::sendings;
use fh_base::{List, NoMemory, Ticks};
use plan_model::{Dense, PlanWhy, PlannedLine, Stream, dense_in, down_distance, up_distance};
use std::alloc::Global;
use thiserror::Error;
use window_config::{Config, Delays, PlanLine};

/// Why a plan is not accepted.
#[derive(Clone, Copy, Debug, PartialEq, Eq, Error)]
pub enum PlanRefusal {
    /// The place of the line that is refused, from 0, and the first reason for it.
    #[error("line {index} of the plan: {why}")]
    At { index: usize, why: PlanWhy },
    /// Memory ran out.
    #[error("no memory")]
    NoMemory,
}

impl From<NoMemory> for PlanRefusal {
    ghost use Rattle.du_scheduler.specs.declared.testing.PlanRefusal.TheVariants.{NoMemory as OutOfMemory};

    ghost from_gives = { λ _ refusal. refusal ≡ OutOfMemory };

    fn from(_: NoMemory) -> Self {
        PlanRefusal::NoMemory
    }
}

/// The data of one direction.
fn stream_of(up: bool) -> Stream
    ensures { result ≡ stream_of up }
{
    if up { Stream::UpData } else { Stream::DownData }
}

/// How near two messages of one sequence id are too near.
fn distance_of(d: &Delays, up: bool) -> Ticks
    requires { IsWithinLimits d.now }
    ensures { result.0 ≡ distance_of d.now up }
{
    if up { up_distance(d) } else { down_distance(d) }
}

/// The message of the lesser number, the first of two with one.
fn lesser(a: Option<Dense>, b: Option<Dense>) -> Option<Dense>
    ensures { result ≡ lesser a b }
{
    match (a, b) {
        (None, b) => b,
        (Some(p), None) => Some(p),
        (Some(p), Some(q)) => {
            if q.number < p.number {
                Some(q)
            } else {
                Some(p)
            }
        }
    }
}

/// The first message of an endpoint and direction that leaves too near to the one 256 before it.
fn endpoint_dense(
    alloc: Global,
    config: &Config,
    up: bool,
    ep: usize,
    lines: &[PlannedLine],
) -> Result<Option<Dense>, NoMemory>
    requires config { IsConfig config.now }
    requires ep { ep < length config.now.endpoints }
    requires lines { ArePlaced lines.now }
    ensures { IfOk result (λ o. (e : SpecEndpoint) → HasEndpoint lines.now ep e
        → o ≡ dense_in (distance_of config.now.delays up) (sendings config.now lines.now (stream_of up) ep e)) }
{
    let stream = stream_of(up);
    let parts = parts_of(alloc, stream, ep, lines)?;
    let sent = sendings(alloc, &Limits::of(config, stream, ep as u8), &parts)?;
    Ok(dense_in(distance_of(&config.delays, up), &sent))
}

/// The first such message of a direction, over all endpoints.
fn direction_dense(
    alloc: Global,
    config: &Config,
    up: bool,
    lines: &[PlannedLine],
) -> Result<Option<Dense>, NoMemory>
    requires config { IsConfig config.now }
    requires lines { AllByRecursion (IsPlaced config.now.endpoints) lines.now }
    ensures { IfOk result (λ o. o ≡ dense_from config.now lines.now (stream_of up) (distance_of config.now.delays up) 0 config.now.endpoints) }
{
    let mut first = None;
    for ep in 0..config.endpoints.as_slice().len() {
        let dense = endpoint_dense(alloc, config, up, ep, lines)?;
        first = lesser(first, dense);
    }
    Ok(first)
}

/// The first such message of all.
fn first_dense(
    alloc: Global,
    config: &Config,
    lines: &[PlannedLine],
) -> Result<Option<Dense>, NoMemory>
    requires config { IsConfig config.now }
    requires lines { AllByRecursion (IsPlaced config.now.endpoints) lines.now }
    ensures { IfOk result (λ o. o ≡ dense config.now lines.now) }
{
    let down = direction_dense(alloc, config, false, lines)?;
    let up = direction_dense(alloc, config, true, lines)?;
    Ok(lesser(down, up))
}

/// The line that is refused, and why.
fn refusal(
    alloc: Global,
    config: &Config,
    lines: &List<PlanLine>,
) -> Result<Option<(usize, PlanWhy)>, NoMemory>
    requires config { IsConfig config.now }
    requires lines { All IsPlanLine lines.now }
    ensures { IfOk result (λ o. o ≡ plan_refusal config.now lines.now) }
{
    let endpoints = config.endpoints.as_slice();
    let placed = place_lines(alloc, endpoints, lines)?;
    let judged = judge_lines(alloc, endpoints, &placed.lines)?;
    if judged.is_some() {
        return Ok(judged);
    }
    if placed.stop.is_some() {
        return Ok(placed.stop);
    }
    match first_dense(alloc, config, &placed.lines)? {
        None => Ok(None),
        Some(dense) => Ok(Some((dense.line, PlanWhy::SequenceDense))),
    }
}

/// Tests the lines of a plan, one after the other: that an endpoint has the line's eAxC id, that the line is in its endpoint's ranges,
/// that it overlaps no earlier line, and that its endpoint's slot has not 64 earlier uplink lines. Where all pass, that no data
/// message leaves so near to the one 256 before it that their fragments may fall into one generation.
///
/// `At` names the first line that is refused, by its place from 0, with the first reason for it; for a message that is too near, its
/// first section's line. `NoMemory` where memory cannot be had.
pub fn tested(alloc: Global, config: &Config, lines: &List<PlanLine>) -> Result<(), PlanRefusal>
    requires config { IsConfig config.now }
    requires lines { All IsPlanLine lines.now }
    ensures { Answers (plan_refusal config.now lines.now) result }
{
    match refusal(alloc, config, lines)? {
        None => Ok(()),
        Some((index, why)) => Err(PlanRefusal::At { index, why }),
    }
}
