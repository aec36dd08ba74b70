// A line by its kind.
ghost use Rattle.std.specs.Prelude.{◌≡◌, ◌+◌, ◌≤◌, ◌++◌, [], length, codes, true};
ghost use Rattle.explain_model.specs.Lines.{is_of_frame, is_of_reason, is_of_unit, line_text, placed_text};
ghost use Rattle.explain_model.specs.declared.values.ExplainLine.TheVariants as explained;

use crate::heads::{endpoint, head, window_name};
use crate::line_sections::{command_answer, control, data, fragment_word, frame_answer, whole};
use crate::places::{MessagePlace, PrbRun};
use crate::reason_words::{from_word, put_reason, word_name};
use crate::reasons::Reason;
use crate::sum_words::{cell_word, class_name, margin_words, reason_line};
use crate::values::{CellWord, CommandAnswer, ExplainLine, Margin, MarginClass, WindowName};
use crate::words::{id, mask_word, message, run_words, side_name};
use air_source::{Side, put_count, put_delay};
use ecpri_fragments::Verdict;
use ecpri_frames::PduRefusal;
use fh_base::{Line, Ticks};
use member_lines::{named, way};
use window_config::Range;

#[tactic(auto, unfolding(crate::specs::Lines::line_text))]
fn window(line: &mut Line, name: WindowName, range: Range)
    requires { line.old ≡ [] }
    ensures { line.new ≡ line_text (explained.Window name range) }
{
    line.text(b"window ");
    line.text(window_name(name));
    line.spaced_signed(range.min);
    line.spaced_signed(range.max);
    line.text(b"\n");
}

#[tactic(auto, unfolding(crate::specs::Lines::line_text))]
fn frame(
    line: &mut Line,
    number: u32,
    side: Side,
    at: Ticks,
    bytes: usize,
    refusal: Option<PduRefusal>,
)
    requires { line.old ≡ [] }
    ensures { line.new ≡ line_text (explained.Frame number side at bytes refusal) }
{
    line.text(b"frame");
    line.spaced(u64::from(number));
    line.text(b" ");
    line.text(way(side));
    line.spaced_signed(at.0);
    line.spaced(bytes as u64);
    frame_answer(line, refusal);
    line.text(b"\n");
}

// Appends a first word, an arrival and a place in its frame.
fn placed(line: &mut Line, word: &[u8], number: u32, place: usize)
    requires { length line.old + length word.now + 48 ≤ 512 }
    ensures text { line.new ≡ line.old ++ placed_text word.now number place }
    ensures short { length line.new ≤ length line.old + length word.now + 48 }
{
    line.text(word);
    line.spaced(u64::from(number));
    named(line, b"place", place as u64);
}

#[tactic(auto, unfolding(crate::specs::Lines::line_text))]
fn measure(line: &mut Line, number: u32, place: usize, size: usize)
    requires { line.old ≡ [] }
    ensures { line.new ≡ line_text (explained.Measure number place size) }
{
    placed(line, b"measure", number, place);
    named(line, b"size", size as u64);
    line.text(b"\n");
}

#[tactic(auto, unfolding(crate::specs::Lines::line_text))]
fn other(line: &mut Line, number: u32, place: usize, kind: u8, size: usize)
    requires { line.old ≡ [] }
    ensures { line.new ≡ line_text (explained.Other number place kind size) }
{
    placed(line, b"other", number, place);
    named(line, b"type", u64::from(kind));
    named(line, b"size", size as u64);
    line.text(b"\n");
}

#[tactic(auto, unfolding(crate::specs::Lines::line_text))]
fn short(line: &mut Line, number: u32, place: usize, kind: u8, size: usize)
    requires { line.old ≡ [] }
    ensures { line.new ≡ line_text (explained.Short number place kind size) }
{
    placed(line, b"short", number, place);
    named(line, b"type", u64::from(kind));
    named(line, b"size", size as u64);
    line.text(b"\n");
}

#[tactic(auto, unfolding(crate::specs::Lines::line_text))]
fn unknown(line: &mut Line, at: &MessagePlace, kind: u8)
    requires { line.old ≡ [] }
    ensures { line.new ≡ line_text (explained.Unknown at.now kind) }
{
    line.text(b"unknown");
    message(line, at);
    named(line, b"type", u64::from(kind));
    line.text(b"\n");
}

#[tactic(auto, unfolding(crate::specs::Lines::line_text))]
fn command(line: &mut Line, at: &MessagePlace, answer: CommandAnswer)
    requires { line.old ≡ [] }
    ensures { line.new ≡ line_text (explained.Command at.now answer) }
{
    line.text(b"command");
    message(line, at);
    command_answer(line, answer);
    line.text(b"\n");
}

#[tactic(auto, unfolding(crate::specs::Lines::line_text))]
fn fragment(line: &mut Line, at: &MessagePlace, bytes: usize, verdict: Verdict)
    requires { line.old ≡ [] }
    ensures { line.new ≡ line_text (explained.Fragment at.now bytes verdict) }
{
    line.text(b"data");
    message(line, at);
    named(line, b"bytes", bytes as u64);
    line.text(fragment_word(verdict));
    line.text(b"\n");
}

#[tactic(auto, unfolding(crate::specs::Lines::line_text))]
fn cells(line: &mut Line, run: &PrbRun, mask: u16, word: CellWord)
    requires { line.old ≡ [] }
    ensures { line.new ≡ line_text (explained.Cells run.now mask word) }
{
    run_words(line, run);
    mask_word(line, mask);
    cell_word(line, word);
    line.text(b"\n");
}

#[tactic(auto, unfolding(crate::specs::Lines::line_text))]
fn why_missing(line: &mut Line, run: &PrbRun, mask: u16, reason: &Reason)
    requires { line.old ≡ [] }
    ensures { line.new ≡ line_text (explained.WhyMissing run.now mask reason.now) }
{
    line.text(b"why ");
    run_words(line, run);
    mask_word(line, mask);
    line.text(b" missing ");
    put_reason(line, reason);
    line.text(b"\n");
}

#[tactic(auto, unfolding(crate::specs::Lines::line_text))]
fn why_silent(line: &mut Line, run: &PrbRun, mask: u16, number: u64, reason: &Reason)
    requires { line.old ≡ [] }
    ensures { line.new ≡ line_text (explained.WhySilent run.now mask number reason.now) }
{
    line.text(b"why ");
    run_words(line, run);
    mask_word(line, mask);
    named(line, b"line", number);
    line.text(b" silent ");
    put_reason(line, reason);
    line.text(b"\n");
}

#[tactic(auto, unfolding(crate::specs::Lines::line_text))]
fn unused(line: &mut Line, run: &PrbRun, from: u32)
    requires { line.old ≡ [] }
    ensures { line.new ≡ line_text (explained.Unused run.now from) }
{
    line.text(b"unused ");
    run_words(line, run);
    from_word(line, from);
    line.text(b"\n");
}

#[tactic(auto, unfolding(crate::specs::Lines::line_text))]
fn margin(line: &mut Line, side: Side, class: MarginClass, endpoint: u16, margin: &Margin)
    requires { line.old ≡ [] }
    ensures { line.new ≡ line_text (explained.Margin side class endpoint margin.now) }
{
    line.text(b"margin ");
    line.text(side_name(side));
    line.text(b" ");
    line.text(class_name(class));
    id(line, endpoint);
    margin_words(line, margin);
    line.text(b"\n");
}

/// Writes the line of a frame, or of a message of it that no unit reads, in an empty line.
fn put_of_frame(said: &ExplainLine, line: &mut Line)
    requires empty { line.old ≡ [] }
    requires kind { is_of_frame said.now ≡ true }
    ensures { line.new ≡ line_text said.now }
{
    match said {
        ExplainLine::Frame {
            number,
            side,
            at,
            bytes,
            refusal,
        } => frame(line, *number, *side, *at, *bytes, *refusal),
        ExplainLine::Measure {
            number,
            place,
            size,
        } => measure(line, *number, *place, *size),
        ExplainLine::Other {
            number,
            place,
            kind,
            size,
        } => other(line, *number, *place, *kind, *size),
        ExplainLine::Short {
            number,
            place,
            kind,
            size,
        } => short(line, *number, *place, *kind, *size),
        ExplainLine::Unknown { message, kind } => unknown(line, message, *kind),
        _ => unreachable!(),
    }
}

/// Writes the line of a reason, or of how often one was told, in an empty line.
#[tactic(auto, unfolding(crate::specs::Lines::line_text))]
fn put_of_reason(said: &ExplainLine, line: &mut Line)
    requires empty { line.old ≡ [] }
    requires kind { is_of_reason said.now ≡ true }
    ensures { line.new ≡ line_text said.now }
{
    match said {
        ExplainLine::WhyMissing { run, mask, reason } => why_missing(line, run, *mask, reason),
        ExplainLine::WhySilent {
            run,
            mask,
            line: number,
            reason,
        } => why_silent(line, run, *mask, *number, reason),
        ExplainLine::ShownCells { side, id, cells } => {
            reason_line(line, *side, *id, b" shown", b"", *cells)
        }
        ExplainLine::MissingCells {
            side,
            id,
            word,
            cells,
        } => reason_line(line, *side, *id, b" missing ", word_name(*word), *cells),
        ExplainLine::SilentPrbs {
            side,
            id,
            word,
            prbs,
        } => reason_line(line, *side, *id, b" silent ", word_name(*word), *prbs),
        _ => unreachable!(),
    }
}

/// Writes the line of a measured delay, a margin or a counter in an empty line.
#[tactic(auto, unfolding(crate::specs::Lines::line_text))]
fn put_of_unit(said: &ExplainLine, line: &mut Line)
    requires empty { line.old ≡ [] }
    requires kind { is_of_unit said.now ≡ true }
    ensures { line.new ≡ line_text said.now }
{
    match said {
        ExplainLine::Delay {
            at,
            side,
            id,
            value,
        } => put_delay(*at, *side, *id, *value, line),
        ExplainLine::Margin {
            side,
            class,
            id,
            margin: m,
        } => margin(line, *side, *class, *id, m),
        ExplainLine::Count {
            side,
            counter,
            value,
        } => put_count(*side, *counter, *value, line),
        _ => unreachable!(),
    }
}

/// Writes a line in place of what was there. It ends with a line feed.
#[tactic(auto, unfolding(crate::specs::Lines::line_text))]
pub fn put_line(said: &ExplainLine, line: &mut Line)
    ensures { line.new ≡ line_text said.now }
{
    line.clear();
    match said {
        ExplainLine::Head { faults } => line.text(head(*faults)),
        ExplainLine::Window { name, range } => window(line, *name, *range),
        ExplainLine::Endpoint(e) => endpoint(line, e),
        ExplainLine::Command { message, answer } => command(line, message, *answer),
        ExplainLine::Control(c) => control(line, c),
        ExplainLine::Fragment {
            message,
            bytes,
            verdict,
        } => fragment(line, message, *bytes, *verdict),
        ExplainLine::Whole(w) => whole(line, w),
        ExplainLine::Data(d) => data(line, d),
        ExplainLine::Cells { run, mask, word } => cells(line, run, *mask, *word),
        ExplainLine::Unused { run, from } => unused(line, run, *from),
        ExplainLine::Frame { .. }
        | ExplainLine::Measure { .. }
        | ExplainLine::Other { .. }
        | ExplainLine::Short { .. }
        | ExplainLine::Unknown { .. } => put_of_frame(said, line),
        ExplainLine::WhyMissing { .. }
        | ExplainLine::WhySilent { .. }
        | ExplainLine::ShownCells { .. }
        | ExplainLine::MissingCells { .. }
        | ExplainLine::SilentPrbs { .. } => put_of_reason(said, line),
        ExplainLine::Delay { .. } | ExplainLine::Margin { .. } | ExplainLine::Count { .. } => {
            put_of_unit(said, line)
        }
        ExplainLine::End => line.text(b"end\n"),
    }
}
