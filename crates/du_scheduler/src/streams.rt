//! What is kept of the streams of an endpoint.
ghost use Rattle.std.specs.Prelude.{◌≡◌, ◌<◌, ◌∷◌, ◌++◌, [], length, IfOk, OnOk};
ghost use Rattle.window_config.specs.Configs.{IsConfig};
ghost use Rattle.window_config.specs.declared.endpoints.EndpointConfig.{EndpointConfig as SpecEndpoint};
ghost use Rattle.unit_model.specs.Proper.{IsAt};
ghost use Rattle.du_scheduler.specs.Runs.{endpoint_runs, stream_runs};
ghost use Rattle.du_scheduler.specs.Kept.{IsStreamParts};
ghost use Rattle.schedule_laws.specs.TabledPlans.{IsTabledPlan};
ghost use Rattle.du_scheduler.specs.Tables.{AddsEndpoint};

use crate::cutting::{Messages, stream_messages};
use crate::kept::{StreamParts, placed_lines};
use crate::limits::Limits;
use crate::parts::parts_of;
use crate::turns::Run;
use fh_base::NoMemory;
use plan_model::{PlannedLine, Stream};
use std::alloc::Global;
use window_config::Config;

/// What is kept of a stream of an endpoint, and its messages.
fn kept_stream(
    alloc: Global,
    config: &Config,
    lines: &[PlannedLine],
    stream: Stream,
    ep: usize,
) -> Result<(StreamParts, Vec<Run>), NoMemory>
    requires config { IsConfig config.now }
    requires plan { IsTabledPlan config.now lines.now }
    requires ep { ep < length config.now.endpoints }
    ensures parts { IfOk result (λ r. (e : SpecEndpoint) → IsAt config.now.endpoints ep e → IsStreamParts config.now lines.now stream ep e r.0) }
    ensures runs { IfOk result (λ r. (e : SpecEndpoint) → IsAt config.now.endpoints ep e → r.1.items ≡ stream_runs config.now lines.now stream ep e) }
{
    let parts = parts_of(alloc, stream, ep, lines)?;
    let limits = Limits::of(config, stream, ep as u8);
    let Messages { runs, begins } = stream_messages(alloc, &limits, &parts)?;
    let kept = StreamParts {
        parts: placed_lines(alloc, &parts)?,
        begins,
    };
    Ok((kept, runs))
}

/// Appends both.
fn add(
    streams: &mut Vec<StreamParts>,
    runs: &mut Vec<Run>,
    kept: StreamParts,
    more: &[Run],
) -> Result<(), NoMemory>
    ensures streams { OnOk result (streams.new.items ≡ streams.old.items ++ kept ∷ []) }
    ensures runs { OnOk result (runs.new.items ≡ runs.old.items ++ more.now) }
{
    streams.push(kept)?;
    runs.extend_from_slice(more)?;
    Ok(())
}

/// Appends what is kept of the streams of an endpoint that the distributed unit sends, and their messages.
pub(crate) fn add_endpoint(
    alloc: Global,
    config: &Config,
    lines: &[PlannedLine],
    ep: usize,
    streams: &mut Vec<StreamParts>,
    runs: &mut Vec<Run>,
) -> Result<(), NoMemory>
    requires config { IsConfig config.now }
    requires plan { IsTabledPlan config.now lines.now }
    requires ep { ep < length config.now.endpoints }
    ensures streams { OnOk result ((e : SpecEndpoint) → IsAt config.now.endpoints ep e → AddsEndpoint config.now lines.now ep e streams.old.items streams.new.items) }
    ensures runs { OnOk result ((e : SpecEndpoint) → IsAt config.now.endpoints ep e → runs.new.items ≡ runs.old.items ++ endpoint_runs config.now lines.now ep e) }
{
    let (down_commands, more) = kept_stream(alloc, config, lines, Stream::DownCommands, ep)?;
    add(streams, runs, down_commands, &more)?;
    let (up_commands, more) = kept_stream(alloc, config, lines, Stream::UpCommands, ep)?;
    add(streams, runs, up_commands, &more)?;
    let (down_data, more) = kept_stream(alloc, config, lines, Stream::DownData, ep)?;
    add(streams, runs, down_data, &more)?;
    Ok(())
}
