// The line of a sent frame.
ghost use Rattle.std.specs.Prelude.{◌≡◌, ◌+◌, ◌*◌, ◌≤◌, [], ◌++◌, codes, decimal, length};
ghost use Rattle.std.specs.List.{flat_map};
ghost use Rattle.bfp_codec.specs.Field.{flag};
ghost use Rattle.fh_document.specs.LineWords.{class_word};
ghost use Rattle.document_texts.specs.SentLines.{copies_text, frame_line_text, kind_text, name_text, piece_text, place_text};
ghost use Rattle.fh_base.specs.Words.{spaced_signed_text};

use ecpri_fragments::SeqField;
use fh_base::{Line, Slot, Ticks};
use fh_document::TrafficClass;
use window_config::PlanKind;

/// What is told of a frame that a plan sends, beside its copies.
#[derive(Clone, Copy, Debug, PartialEq, Eq)]
pub struct FrameLine {
    pub class: TrafficClass,
    /// Its number among the frames of its class, from 1, in the order in which frames are sent.
    pub number: u64,
    /// When it is sent.
    pub at: Ticks,
    /// Its endpoint's eAxC id.
    pub id: u16,
    /// The slot of its message; the frame is counted from time 0.
    pub slot: Slot,
    /// The symbol of its message.
    pub symbol: u8,
    /// The number in the document, from 1, of the plan line of its message's first section.
    pub line: usize,
    /// Sequence id, E bit and subsequence id.
    pub field: SeqField,
    /// How many bytes it has.
    pub bytes: usize,
    /// The kind of this plan line.
    pub kind: PlanKind,
}

/// The word of a class.
fn class_word(class: TrafficClass) -> &'static [u8]
    ensures word { result.now ≡ class_word class }
    ensures short { length result.now ≤ 1 }
{
    match class {
        TrafficClass::C => b"c",
        TrafficClass::U => b"u",
        TrafficClass::M => b"m",
    }
}

/// Appends which frame it is, when it is sent, and its endpoint.
fn put_name(line: &mut Line, f: &FrameLine)
    requires { length line.old ≤ 200 }
    ensures text { line.new ≡ line.old ++ name_text f.now }
    ensures short { length line.new ≤ length line.old + 60 }
{
    line.text(b"sent dl ");
    line.text(class_word(f.class));
    line.spaced(f.number);
    line.spaced_signed(f.at.0);
    line.text(b" ");
    line.hex4(f.id);
}

/// Appends the slot and the symbol of its message, and the document's line.
fn put_place(line: &mut Line, f: &FrameLine)
    requires { length line.old ≤ 200 }
    ensures text { line.new ≡ line.old ++ place_text f.now }
    ensures short { length line.new ≤ length line.old + 110 }
{
    line.spaced_signed(f.slot.frame);
    line.spaced(u64::from(f.slot.subframe));
    line.spaced(u64::from(f.slot.slot));
    line.spaced(u64::from(f.symbol));
    line.text(b" line=");
    line.number(f.line as u64);
}

/// Appends the sequence field and the length.
fn put_piece(line: &mut Line, f: &FrameLine)
    requires { length line.old ≤ 200 }
    ensures text { line.new ≡ line.old ++ piece_text f.now }
    ensures short { length line.new ≤ length line.old + 100 }
{
    line.text(b" seq=");
    line.number(u64::from(f.field.seq));
    line.text(b" sub=");
    line.number(u64::from(f.field.sub));
    line.text(b" e=");
    line.number(u64::from(f.field.last));
    line.text(b" bytes=");
    line.number(f.bytes as u64);
}

/// What a plan line's kind adds.
fn kind_text(kind: PlanKind) -> &'static [u8]
    ensures word { result.now ≡ kind_text kind }
    ensures short { length result.now ≤ 7 }
{
    match kind {
        PlanKind::Down => b"",
        PlanKind::Up => b" uplink",
        PlanKind::Idle => b" idle",
    }
}

/// Appends the times of copies.
fn put_times(line: &mut Line, copies: &[i64])
    requires few { length copies.now ≤ 8 }
    requires room { length line.old + 168 ≤ 511 }
    ensures text { line.new ≡ line.old ++ flat_map spaced_signed_text copies.now }
    ensures short { length line.new ≤ length line.old + 168 }
{
    for ns in copies {
        line.spaced_signed(*ns);
    }
}

/// Appends what becomes of the frame.
fn put_copies(line: &mut Line, copies: &[i64])
    requires few { length copies.now ≤ 8 }
    requires room { length line.old + 175 ≤ 511 }
    ensures text { line.new ≡ line.old ++ copies_text copies.now }
    ensures short { length line.new ≤ length line.old + 175 }
{
    if copies.is_empty() {
        line.text(b" lost");
    } else {
        line.text(b" copies");
        put_times(line, copies);
    }
}

/// Puts the line of a sent frame into an empty line: `sent dl CLASS K T ID F S L Y line=J seq=S sub=B e=E bytes=Z`, then `uplink` for
/// the command of a `ul` line and `idle` for that of an `idle` line, and then `copies` with the nanoseconds that each copy is on its
/// way, or `lost` where there is none.
pub fn put_frame_line(line: &mut Line, f: &FrameLine, copies: &[i64])
    requires empty { line.old ≡ [] }
    requires few { length copies.now ≤ 8 }
    ensures { line.new ≡ frame_line_text f.now copies.now }
{
    put_name(line, f);
    put_place(line, f);
    put_piece(line, f);
    line.text(kind_text(f.kind));
    put_copies(line, copies);
    line.text(b"\n");
}
