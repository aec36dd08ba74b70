// The sections of a command that was read.
ghost use Rattle.std.specs.Prelude.{◌≡◌, IfOk, List, All};
ghost use Rattle.cplane_sections.specs.Message.{sections_in};
ghost use Rattle.unit_model.specs.Meetings.{commands_with};
ghost use Rattle.unit_model.specs.Met.{IsRead};
ghost use Rattle.unit_model.specs.Proper.{IsAt, IsTime, IsProperCommand};
ghost use Rattle.unit_model.specs.Terms.{EndpointConfig as SpecEndpoint};

use cplane_sections::{CHead, sections};
use fh_base::{NoMemory, Ticks};
use std::alloc::Global;
use unit_model::ControlSection;
use window_config::EndpointConfig;

/// The sections of a command that was read, in its order.
pub(crate) fn commands(
    alloc: Global,
    at: Ticks,
    ep: usize,
    endpoint: &EndpointConfig,
    head: &CHead,
    bytes: &[u8],
) -> Result<Vec<ControlSection>, NoMemory>
    requires { IsRead endpoint.now head.now bytes.now }
    ensures value { IfOk result (λ cs. cs.items ≡ commands_with ep endpoint.now at.0 head.now (sections_in head.now bytes.now)) }
    ensures proper { (es : List SpecEndpoint) → IsAt es ep endpoint.now → IsTime at.0 → IfOk result (λ cs. All (IsProperCommand es) cs.items) }
{
    let mut commands = Vec::new(alloc);
    for section in sections(bytes, head) {
        commands.push(ControlSection {
            ep,
            endpoint: *endpoint,
            at,
            head: *head,
            section,
        })?;
    }
    Ok(commands)
}
