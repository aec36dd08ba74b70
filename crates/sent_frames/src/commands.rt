//! The frames of C-plane messages.
ghost use Rattle.std.specs.Prelude.{◌≡◌, ℕ, ◌≤◌, Option, length, take};
ghost use Rattle.bfp_codec.specs.Layout.{HasWidth};
ghost use Rattle.cplane_sections.specs.Message.{HeadFits, SectionFits};
ghost use Rattle.window_config.specs.Endpoints.{IsEndpoint};
ghost use Rattle.window_config.specs.Plans.{IsPlanLine};
ghost use Rattle.plan_model.specs.Lines.{is_down_kind};
ghost use Rattle.frame_bytes.specs.Commands.{command_frame as frame_of_command};
ghost use Rattle.sent_frames.specs.Commands.{beam_of, body_for, channel_body, command_head, command_section, comp_of};
ghost use Rattle.frame_bytes.specs.Headers.{frame_id_of};

use bfp_codec::{Format, Method};
use cplane_sections::{CBody, CHead, CSection};
use fh_base::{code, offsets};
use frame_bytes::command;
use plan_model::PlannedLine;
use window_config::{EndpointConfig, PlanKind};

/// frameId: the low 8 bits of a frame's number.
pub(crate) fn frame_id_of(frame: i64) -> u8
    ensures { result ≡ frame_id_of frame }
{
    frame.rem_euclid(256) as u8
}

/// udCompHdr of an uplink command: the endpoint's in a dynamic format, else 0; the width 16 is written as 0.
#[tactic(auto, using(std::proofs::lemmas::Grind::common_steps))]
fn comp_of(format: Format) -> u8
    requires { HasWidth format.method }
    ensures { result ≡ comp_of format }
{
    match format {
        Format {
            dynamic: true,
            method: Method::Bfp(width),
        } => ((width & 0xf) << 4) | 1,
        _ => 0,
    }
}

/// What the header of section type 1 or 3 ends with.
fn channel_body(structure: u8, comp: u8, offsets: Option<(u16, u16)>) -> CBody
    ensures { result ≡ channel_body structure comp offsets }
{
    match offsets {
        None => CBody::Normal { comp },
        Some((time_offset, cp_length)) => CBody::Offset {
            time_offset,
            structure,
            cp_length,
            comp,
        },
    }
}

/// What the header of a line's command ends with.
fn body_for(kind: PlanKind, endpoint: &EndpointConfig) -> CBody
    requires { IsEndpoint endpoint.now }
    ensures { result ≡ body_for kind endpoint.now }
{
    let structure = code(&endpoint.numerology);
    let shift = offsets(&endpoint.numerology);
    match kind {
        PlanKind::Down => channel_body(structure, 0, shift),
        PlanKind::Up => channel_body(structure, comp_of(endpoint.format), shift),
        PlanKind::Idle => {
            let (time_offset, cp_length) = shift.unwrap_or((0, 0));
            CBody::Idle {
                time_offset,
                structure,
                cp_length,
            }
        }
    }
}

/// beamId, which section type 0 has not.
fn beam_of(kind: PlanKind, beam: u16) -> u16
    ensures { result ≡ beam_of kind beam }
{
    match kind {
        PlanKind::Down | PlanKind::Up => beam,
        PlanKind::Idle => 0,
    }
}

/// Whether a line is for the downlink.
fn is_down(kind: PlanKind) -> bool
    ensures { result ≡ is_down_kind kind }
{
    match kind {
        PlanKind::Down | PlanKind::Idle => true,
        PlanKind::Up => false,
    }
}

/// The header of a line's command.
fn command_head(p: &PlannedLine) -> CHead
    requires line { IsPlanLine p.now.line }
    requires endpoint { IsEndpoint p.now.endpoint }
    ensures value { result ≡ command_head p.now }
    ensures fits { HeadFits result }
{
    CHead {
        down: is_down(p.line.kind),
        filter: 0,
        frame_id: frame_id_of(p.line.slot.frame),
        subframe: p.line.slot.subframe,
        slot: p.line.slot.slot,
        start_symbol: p.line.symbol,
        count: 1,
        body: body_for(p.line.kind, &p.endpoint),
    }
}

/// The section of a line's command.
fn command_section(p: &PlannedLine) -> CSection
    requires line { IsPlanLine p.now.line }
    ensures value { result ≡ command_section p.now }
    ensures fits { SectionFits result }
{
    CSection {
        id: p.line.section,
        sym_inc: false,
        symbol: p.line.symbol,
        start_prb: p.line.start_prb,
        num_prb: p.line.num_prb,
        mask: p.line.mask,
        num_symbol: p.line.count,
        beam: beam_of(p.line.kind, p.line.beam),
        freq_offset: 0,
    }
}

/// Writes the frame of a line's C-plane message at the front, and answers how many bytes it has: section type 0 for an `idle` line,
/// 3 on an offset endpoint, else 1. `number` is its sequence id. The bytes after the frame stay as they are.
pub fn command_frame(p: &PlannedLine, number: u8, into: &mut [u8]) -> usize
    requires line { IsPlanLine p.now.line }
    requires endpoint { IsEndpoint p.now.endpoint }
    requires room { 32 ≤ length into.old }
    ensures short { result ≤ 32 }
    ensures len { length into.new ≡ length into.old }
    ensures bytes { take result into.new ≡ frame_of_command p.now.endpoint.id number (command_head p.now) (command_section p.now) }
{
    command(
        p.endpoint.id,
        number,
        &command_head(p),
        &command_section(p),
        into,
    )
}
