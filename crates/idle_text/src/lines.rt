// The two lines.
ghost use Rattle.std.specs.Prelude.{◌≡◌, ◌+◌, ◌≤◌, [], ◌∷◌, ◌++◌, length};
ghost use Rattle.std.specs.Fmt.{signed_decimal};
ghost use Rattle.idle_text.specs.Lines.{idle_line, place_text, plan_line_text, span_line_text};
ghost use Rattle.fh_document.specs.LineWords.{plan_kind_word};
ghost use Rattle.fh_base.specs.Words.{hex3_text, hex4_text};

use fh_base::{Line, Slot, shape};
use idle_spans::{Place, Span};
use window_config::{EndpointConfig, PlanKind, PlanLine};

/// Appends a symbol: frame, subframe, slot and symbol, each after a space.
fn place(line: &mut Line, p: Place)
    requires { length line.old + 84 ≤ 512 }
    ensures text { line.new ≡ line.old ++ place_text p }
    ensures short { length line.new ≤ length line.old + 84 }
{
    line.spaced_signed(p.slot.frame);
    line.spaced(u64::from(p.slot.subframe));
    line.spaced(u64::from(p.slot.slot));
    line.spaced(u64::from(p.symbol));
}

/// Puts the line of a span into an empty line: `idle ID F S L Y F S L Y SYMBOLS MISSED`, with the first and the last symbol, how many
/// symbols, and in how many of them a cell is missing.
#[tactic(auto, unfolding(crate::specs::Lines::span_line_text))]
pub fn put_span_line(line: &mut Line, id: u16, span: &Span)
    requires { line.old ≡ [] }
    ensures { line.new ≡ span_line_text id span.now }
{
    line.text(b"idle ");
    line.hex4(id);
    place(line, span.first);
    place(line, span.last);
    line.spaced(u64::from(span.symbols));
    line.spaced(u64::from(span.missed));
    line.text(b"\n");
}

/// The plan line of section type 0 for all resource elements of a slot, with the greatest section id.
pub fn idle_line(e: &EndpointConfig, slot: Slot) -> PlanLine
    ensures { result ≡ idle_line e.now slot }
{
    PlanLine {
        kind: PlanKind::Idle,
        id: e.id,
        slot,
        symbol: 0,
        count: shape(&e.numerology).symbols,
        start_prb: 0,
        num_prb: 0,
        mask: 0xfff,
        section: 4_095,
        beam: 0,
    }
}

/// The word of a line's kind.
fn kind_word(kind: PlanKind) -> &'static [u8]
    ensures word { result.now ≡ plan_kind_word kind }
    ensures short { length result.now ≤ 4 }
{
    match kind {
        PlanKind::Down => b"dl",
        PlanKind::Up => b"ul",
        PlanKind::Idle => b"idle",
    }
}

/// Appends a space and a word.
fn word(line: &mut Line, w: &[u8])
    requires { length line.old + length w.now + 1 ≤ 512 }
    ensures { line.new ≡ line.old ++ 32 ∷ w.now }
{
    line.text(b" ");
    line.text(w);
}

/// Appends a space and the frame of a slot.
fn frame_word(line: &mut Line, slot: Slot)
    requires { length line.old + 21 ≤ 512 }
    ensures text { line.new ≡ line.old ++ 32 ∷ signed_decimal slot.frame }
    ensures short { length line.new ≤ length line.old + 21 }
{
    line.spaced_signed(slot.frame);
}

/// Appends a space and the four hexadecimal digits of an id.
fn id_word(line: &mut Line, id: u16)
    requires { length line.old + 5 ≤ 512 }
    ensures text { line.new ≡ line.old ++ 32 ∷ hex4_text id }
    ensures short { length line.new ≤ length line.old + 5 }
{
    line.text(b" ");
    line.hex4(id);
}

/// Appends a space and the three hexadecimal digits of a mask.
fn mask_word(line: &mut Line, mask: u16)
    requires { length line.old + 4 ≤ 512 }
    ensures text { line.new ≡ line.old ++ 32 ∷ hex3_text mask }
    ensures short { length line.new ≤ length line.old + 4 }
{
    line.text(b" ");
    line.hex3(mask);
}

/// Puts a plan line into an empty line, as the grammar of documents has it: `plan KIND ID FRAME SUBFRAME SLOT SYMBOL COUNT PRB NUM MASK
/// SECTION BEAM`.
pub fn put_plan_line(line: &mut Line, l: &PlanLine)
    requires { line.old ≡ [] }
    ensures { line.new ≡ plan_line_text l.now }
{
    line.text(b"plan");
    word(line, kind_word(l.kind));
    id_word(line, l.id);
    frame_word(line, l.slot);
    line.spaced(l.slot.subframe as u64);
    line.spaced(l.slot.slot as u64);
    line.spaced(l.symbol as u64);
    line.spaced(l.count as u64);
    line.spaced(l.start_prb as u64);
    line.spaced(l.num_prb as u64);
    mask_word(line, l.mask);
    line.spaced(l.section as u64);
    line.spaced(l.beam as u64);
    line.text(b"\n");
}
