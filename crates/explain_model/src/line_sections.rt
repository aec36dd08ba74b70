// The lines of messages and sections.
ghost use Rattle.std.specs.Prelude.{◌≡◌, ◌+◌, ◌≤◌, ◌++◌, [], length};
ghost use Rattle.explain_model.specs.Lines.{why_text, frame_answer_text, command_answer_text, whole_answer_text, fragment_text, named_symbol_text, whole_text, command_verdict_text, data_verdict_text, word_if, clashing_text, control_place_text, control_text, fresh_text, data_text};

use crate::places::Clash;
use crate::values::{CommandAnswer, ControlLine, DataLine, WholeAnswer, WholeLine};
use crate::words::{clash, id, mask_word, moment, prbs, symbol, timing};
use ecpri_fragments::Verdict;
use ecpri_frames::PduRefusal;
use fh_base::{Line, Slot};
use member_lines::named;
use unit_model::{CommandVerdict, DataVerdict};

// Appends why, and where.
fn why(line: &mut Line, name: &[u8], at: usize)
    requires { length line.old + length name.now + 25 ≤ 512 }
    ensures text { line.new ≡ line.old ++ why_text name.now at }
    ensures short { length line.new ≤ length line.old + length name.now + 25 }
{
    line.text(b" ");
    line.text(name);
    named(line, b"at", at as u64);
}

/// Appends what became of a frame.
pub fn frame_answer(line: &mut Line, refusal: Option<PduRefusal>)
    requires { length line.old + 37 ≤ 512 }
    ensures text { line.new ≡ line.old ++ frame_answer_text refusal }
    ensures short { length line.new ≤ length line.old + 37 }
{
    match refusal {
        None => line.text(b" ok"),
        Some(r) => why(line, r.why.name().as_bytes(), r.place),
    }
}

/// Appends what became of a message of type 2.
pub fn command_answer(line: &mut Line, answer: CommandAnswer)
    requires { length line.old + 37 ≤ 512 }
    ensures text { line.new ≡ line.old ++ command_answer_text answer }
    ensures short { length line.new ≤ length line.old + 37 }
{
    match answer {
        CommandAnswer::Read => line.text(b" ok"),
        CommandAnswer::Fragmented => line.text(b" Fragmented at=0"),
        CommandAnswer::Refused(r) => why(line, r.why.name().as_bytes(), r.place),
        CommandAnswer::WrongWay => line.text(b" wrong_way"),
    }
}

fn whole_answer(line: &mut Line, answer: WholeAnswer)
    requires { length line.old + 37 ≤ 512 }
    ensures text { line.new ≡ line.old ++ whole_answer_text answer }
    ensures short { length line.new ≤ length line.old + 37 }
{
    match answer {
        WholeAnswer::Refused(r) => why(line, r.why.name().as_bytes(), r.place),
        WholeAnswer::WrongWay => line.text(b" wrong_way"),
    }
}

/// What became of a fragment.
pub fn fragment_word(verdict: Verdict) -> &'static [u8]
    ensures text { result.now ≡ fragment_text verdict }
    ensures short { length result.now ≤ 7 }
{
    match verdict {
        Verdict::Stored => b" stored",
        Verdict::Whole => b" whole",
        Verdict::Repeat => b" repeat",
        Verdict::Stray => b" stray",
        Verdict::TooLong => b" long",
    }
}

fn named_symbol(line: &mut Line, named: Option<(Slot, u8)>)
    requires { length line.old + 84 ≤ 512 }
    ensures text { line.new ≡ line.old ++ named_symbol_text named }
    ensures short { length line.new ≤ length line.old + 84 }
{
    if let Some((slot, symbol)) = named {
        moment(line, slot, symbol);
    }
}

/// Appends the line of a whole message to an empty line.
#[tactic(auto, unfolding(crate::specs::Lines::whole_text))]
pub fn whole(line: &mut Line, w: &WholeLine)
    requires { line.old ≡ [] }
    ensures { line.new ≡ whole_text w.now }
{
    line.text(b"whole");
    line.spaced(u64::from(w.number));
    id(line, w.id);
    named_symbol(line, w.named);
    named(line, b"pieces", w.pieces as u64);
    named(line, b"bytes", w.bytes as u64);
    whole_answer(line, w.answer);
    line.text(b"\n");
}

fn command_verdict(verdict: CommandVerdict) -> &'static [u8]
    ensures text { result.now ≡ command_verdict_text verdict }
    ensures short { length result.now ≤ 9 }
{
    match verdict {
        CommandVerdict::Mismatch => b" mismatch",
        CommandVerdict::Late => b" late",
        CommandVerdict::Early => b" early",
        CommandVerdict::Range => b" range",
        CommandVerdict::Repeat => b" repeat",
        CommandVerdict::Overlap => b" overlap",
        CommandVerdict::Full => b" full",
        CommandVerdict::Accepted => b" accepted",
    }
}

fn data_verdict(verdict: DataVerdict) -> &'static [u8]
    ensures text { result.now ≡ data_verdict_text verdict }
    ensures short { length result.now ≤ 7 }
{
    match verdict {
        DataVerdict::Late => b" late",
        DataVerdict::Early => b" early",
        DataVerdict::Repeat => b" repeat",
        DataVerdict::Taken => b" taken",
    }
}

// Appends a word, where the line has it.
fn word_where(line: &mut Line, stands: bool, word: &[u8])
    requires { length line.old + length word.now ≤ 512 }
    ensures text { line.new ≡ line.old ++ word_if stands word.now }
    ensures short { length line.new ≤ length line.old + length word.now }
{
    if stands {
        line.text(word);
    }
}

fn clashing(line: &mut Line, found: Option<Clash>)
    requires { length line.old + 79 ≤ 512 }
    ensures text { line.new ≡ line.old ++ clashing_text found }
    ensures short { length line.new ≤ length line.old + 79 }
{
    if let Some(c) = found {
        clash(line, c);
    }
}

// Appends the words before a section's verdict to an empty line.
#[tactic(auto, unfolding(crate::specs::Lines::control_place_text))]
fn control_place(line: &mut Line, c: &ControlLine)
    requires { line.old ≡ [] }
    ensures text { line.new ≡ control_place_text c.now }
    ensures short { length line.new ≤ 228 }
{
    line.text(b"c");
    line.spaced(u64::from(c.number));
    symbol(line, c.place);
    named(line, b"section", u64::from(c.section));
    prbs(line, c.prb, u32::from(c.num));
    named(line, b"symbols", u64::from(c.symbols));
    mask_word(line, c.mask);
}

/// Appends the line of a section of a command to an empty line.
#[tactic(auto, unfolding(crate::specs::Lines::control_text))]
pub fn control(line: &mut Line, c: &ControlLine)
    requires { line.old ≡ [] }
    ensures { line.new ≡ control_text c.now }
{
    control_place(line, c);
    word_where(line, c.uplink, b" uplink");
    word_where(line, c.idle, b" idle");
    line.text(command_verdict(c.verdict));
    timing(line, c.timing);
    clashing(line, c.clash);
    line.text(b"\n");
}

fn fresh(line: &mut Line, fresh: Option<u16>)
    requires { length line.old + 27 ≤ 512 }
    ensures text { line.new ≡ line.old ++ fresh_text fresh }
    ensures short { length line.new ≤ length line.old + 27 }
{
    if let Some(n) = fresh {
        named(line, b"fresh", u64::from(n));
    }
}

/// Appends the line of a section of data to an empty line.
#[tactic(auto, unfolding(crate::specs::Lines::data_text))]
pub fn data(line: &mut Line, d: &DataLine)
    requires { line.old ≡ [] }
    ensures { line.new ≡ data_text d.now }
{
    line.text(b"u");
    line.spaced(u64::from(d.number));
    symbol(line, d.place);
    named(line, b"section", u64::from(d.section));
    prbs(line, d.prb, u32::from(d.num));
    line.text(data_verdict(d.verdict));
    timing(line, d.timing);
    fresh(line, d.fresh);
    line.text(b"\n");
}
