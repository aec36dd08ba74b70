// The words that say where something is.
ghost use Rattle.std.specs.Prelude.{◌≡◌, ◌+◌, ◌≤◌, ◌++◌, length, codes};
ghost use Rattle.explain_model.specs.Places.{moment_text, symbol_text, prbs_text, mask_text, run_text, bit_text, message_text, timing_text, clash_text};
ghost use Rattle.air_source.specs.UnitLines.{side_text};
ghost use Rattle.fh_base.specs.Words.{hex4_text};

use crate::places::{Clash, MessagePlace, PrbRun, SymbolPlace, Timing};
use air_source::Side;
use fh_base::{Line, Slot};
use member_lines::{named, named_hex3, named_signed, named_word, way};

/// The name of a unit.
pub fn side_name(side: Side) -> &'static [u8]
    ensures text { result.now ≡ side_text side }
    ensures short { length result.now ≡ 2 }
{
    match side {
        Side::Ru => b"ru",
        Side::Du => b"du",
    }
}

/// Appends frame, subframe, slot and symbol.
pub fn moment(line: &mut Line, slot: Slot, symbol: u8)
    requires { length line.old + 84 ≤ 512 }
    ensures text { line.new ≡ line.old ++ moment_text slot symbol }
    ensures short { length line.new ≤ length line.old + 84 }
{
    line.spaced_signed(slot.frame);
    line.spaced(u64::from(slot.subframe));
    line.spaced(u64::from(slot.slot));
    line.spaced(u64::from(symbol));
}

/// Appends a space and an eAxC id.
pub fn id(line: &mut Line, id: u16)
    requires { length line.old + 5 ≤ 512 }
    ensures text { line.new ≡ line.old ++ (codes " " ++ hex4_text id) }
    ensures short { length line.new ≤ length line.old + 5 }
{
    line.text(b" ");
    line.hex4(id);
}

/// Appends the id of an endpoint, and a symbol of it.
pub fn symbol(line: &mut Line, place: SymbolPlace)
    requires { length line.old + 89 ≤ 512 }
    ensures text { line.new ≡ line.old ++ symbol_text place }
    ensures short { length line.new ≤ length line.old + 89 }
{
    id(line, place.id);
    moment(line, place.slot, place.symbol);
}

/// Appends a first PRB and a number of PRBs.
pub fn prbs(line: &mut Line, prb: u16, num: u32)
    requires { length line.old + 50 ≤ 512 }
    ensures text { line.new ≡ line.old ++ prbs_text prb num }
    ensures short { length line.new ≤ length line.old + 50 }
{
    named(line, b"prb", u64::from(prb));
    named(line, b"num", u64::from(num));
}

/// Appends a mask.
pub fn mask_word(line: &mut Line, mask: u16)
    requires { length line.old + 9 ≤ 512 }
    ensures text { line.new ≡ line.old ++ mask_text mask }
    ensures short { length line.new ≤ length line.old + 9 }
{
    named_hex3(line, b"mask", mask);
}

/// Appends PRBs of a symbol.
#[tactic(auto, unfolding(crate::specs::Places::run_text))]
pub fn run_words(line: &mut Line, run: &PrbRun)
    requires { length line.old + 191 ≤ 512 }
    ensures text { line.new ≡ line.old ++ run_text run.now }
    ensures short { length line.new ≤ length line.old + 191 }
{
    line.text(way(run.side));
    line.spaced_signed(run.at.0);
    symbol(line, run.place);
    prbs(line, run.prb, run.num);
    named(line, b"section", u64::from(run.section));
}

fn bit(set: bool) -> &'static [u8]
    ensures text { result.now ≡ bit_text set }
    ensures short { length result.now ≡ 1 }
{
    if set { b"1" } else { b"0" }
}

/// Appends where a message is.
#[tactic(auto, unfolding(crate::specs::Places::message_text))]
pub fn message(line: &mut Line, m: &MessagePlace)
    requires { length line.old + 108 ≤ 512 }
    ensures text { line.new ≡ line.old ++ message_text m.now }
    ensures short { length line.new ≤ length line.old + 108 }
{
    line.spaced(u64::from(m.number));
    id(line, m.id);
    named(line, b"place", m.place as u64);
    named(line, b"seq", u64::from(m.seq.seq));
    named(line, b"sub", u64::from(m.seq.sub));
    named_word(line, b"e", bit(m.seq.last));
}

/// Appends the distances from the two ends of a window.
#[tactic(auto, unfolding(crate::specs::Places::timing_text))]
pub fn timing(line: &mut Line, timing: Timing)
    requires { length line.old + 54 ≤ 512 }
    ensures text { line.new ≡ line.old ++ timing_text timing }
    ensures short { length line.new ≤ length line.old + 54 }
{
    named_signed(line, b"since", timing.since);
    named_signed(line, b"until", timing.until);
}

/// Appends what a section overlaps.
#[tactic(auto, unfolding(crate::specs::Places::clash_text))]
pub fn clash(line: &mut Line, clash: Clash)
    requires { length line.old + 79 ≤ 512 }
    ensures text { line.new ≡ line.old ++ clash_text clash }
    ensures short { length line.new ≤ length line.old + 79 }
{
    named(line, b"with", u64::from(clash.section));
    named(line, b"symbol", u64::from(clash.symbol));
    named(line, b"prb", u64::from(clash.prb));
}
