// How many bytes a frame has, and its sequence field.
ghost use Rattle.std.specs.Prelude.{◌≡◌, ℕ, ◌≤◌, ◌<◌, ◌*◌, ◌+◌, ◌-◌, ◌%◌, min, length, Some};
ghost use Rattle.std.specs.List.{slice_get};
ghost use Rattle.ecpri_fragments.specs.Pieces.{piece_count};
ghost use Rattle.ecpri_fragments.specs.declared.place.TheConstants.{MESSAGE_BYTES};
ghost use Rattle.fh_document.specs.declared.document.Document.{Document as SpecDocument};
ghost use Rattle.frame_bytes.specs.Commands.{command_frame as frame_of_command};
ghost use Rattle.plan_model.specs.Packs.{Message, size_of};
ghost use Rattle.plan_model.specs.Sent.{SentFrame};
ghost use Rattle.plan_model.specs.Streams.{Part, part_fields};
ghost use Rattle.sent_frames.specs.Commands.{command_head, command_section};
ghost use Rattle.sent_frames.specs.Frames.{fragment_field};
ghost use Rattle.document_texts.specs.Frames.{IsFrameOf, IsPlaced, turn_field};
ghost use Rattle.document_texts.specs.Rows.{frame_for};
ghost use Rattle.window_config.specs.Endpoints.{IsEndpoint};
ghost use Rattle.window_config.specs.Plans.{IsPlanLine};
ghost use Rattle.window_config.specs.declared.config.TheConstants.{LEAST_FRAGMENT, MOST_FRAGMENT};

use du_scheduler::{PlacedLine, Turn};
use ecpri_fragments::SeqField;
use fh_base::List;
use fh_document::Document;
use plan_model::{PlannedLine, frame_count, section_size};
use sent_frames::command_frame;
use window_config::{EndpointConfig, PlanLine};

/// The sequence field of a frame, and how many bytes the frame has.
#[derive(Clone, Copy)]
pub(crate) struct Piece {
    pub(crate) field: SeqField,
    pub(crate) bytes: usize,
}

/// The sequence field of a frame whose message so many carry.
fn field_of(turn: &Turn, frames: usize) -> SeqField
    ensures { result ≡ turn_field turn.now frames }
{
    SeqField {
        seq: (turn.number % 256) as u8,
        last: turn.sub as usize + 1 == frames,
        sub: turn.sub,
    }
}

/// How many bytes the frame of a line's command has.
fn command_size(p: &PlannedLine, number: u8) -> usize
    requires line { IsPlanLine p.now.line }
    requires endpoint { IsEndpoint p.now.endpoint }
    ensures { result ≡ length (frame_of_command p.now.endpoint.id number (command_head p.now) (command_section p.now)) }
{
    let mut room = [0; 32];
    command_frame(p, number, &mut room)
}

/// One of a plan's lines.
pub(crate) fn line_at(plan: &List<PlanLine>, k: usize) -> PlanLine
    requires { k < length plan.now }
    ensures { slice_get plan.now k ≡ Some result }
{
    match plan.get(k) {
        Some(line) => *line,
        None => unreachable!(),
    }
}

/// How many application bytes the data message with these parts has, at its endpoint.
fn message_size(plan: &List<PlanLine>, endpoint: &EndpointConfig, parts: &[PlacedLine]) -> usize
    requires endpoint { IsEndpoint endpoint.now }
    requires message { (m : Message Part) × IsPlaced plan.now endpoint.now parts.now m × (size_of part_fields m ≤ MESSAGE_BYTES) }
    ensures { (m : Message Part) → IsPlaced plan.now endpoint.now parts.now m → result ≡ size_of part_fields m }
{
    let mut size = 4;
    for part in parts {
        size += section_size(endpoint, line_at(plan, part.line as usize).num_prb);
    }
    size
}

/// What a command's frame is: all of its message.
fn command_piece(p: &PlannedLine, turn: &Turn) -> Piece
    requires line { IsPlanLine p.now.line }
    requires endpoint { IsEndpoint p.now.endpoint }
    ensures field { result.field ≡ turn_field turn.now 1 }
    ensures bytes { result.bytes ≡ length (frame_of_command p.now.endpoint.id (turn.now.number % 256) (command_head p.now) (command_section p.now)) }
{
    let field = field_of(turn, 1);
    Piece {
        field,
        bytes: command_size(p, field.seq),
    }
}

/// What a fragment's frame is, where its message has so many application bytes: the headers have eight bytes more.
fn fragment_piece(turn: &Turn, fragment: usize, bytes: usize) -> Piece
    requires low { LEAST_FRAGMENT ≤ fragment }
    requires high { fragment ≤ MOST_FRAGMENT }
    requires bytes { bytes ≤ MESSAGE_BYTES }
    requires sub { turn.now.sub < piece_count fragment bytes }
    ensures field { result.field ≡ turn_field turn.now (piece_count fragment bytes) }
    ensures bytes { result.bytes ≡ 8 + min fragment (bytes - turn.now.sub * fragment) }
{
    let from = turn.sub as usize * fragment;
    Piece {
        field: field_of(turn, frame_count(fragment, bytes)),
        bytes: 8 + fragment.min(bytes - from),
    }
}

/// What a turn's frame is among those of its message, which has these parts and begins with this line.
pub(crate) fn piece_of(
    document: &Document,
    p: &PlannedLine,
    parts: &[PlacedLine],
    turn: &Turn,
) -> Piece
    requires frame { (f : SentFrame) × IsFrameOf document.now f parts.now turn.now × (p.now ≡ f.message.first.planned) }
    ensures field { (f : SentFrame) → IsFrameOf document.now f parts.now turn.now → p.now ≡ f.message.first.planned → result.field ≡ fragment_field document.now.config f }
    ensures bytes { (f : SentFrame) → IsFrameOf document.now f parts.now turn.now → p.now ≡ f.message.first.planned → result.bytes ≡ length (frame_for document.now f) }
{
    if turn.is_command() {
        command_piece(p, turn)
    } else {
        let bytes = message_size(&document.plan, &p.endpoint, parts);
        fragment_piece(turn, document.config.fragment, bytes)
    }
}
