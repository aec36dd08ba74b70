// The document that is generated from a seed.
ghost use Rattle.std.specs.Prelude.{◌≡◌, ◌≤◌, ◌<◌, ◌+◌, ◌++◌, length, [], OnOk, IfOk};
ghost use Rattle.line_words.specs.Each.{each};
ghost use Rattle.fh_document.specs.Generated.{tone_text, opening_text, endpoint_text, kind_text, kind_words, slot_text, plan_text, plans_text, deliver_text, generated};

use fh_base::{Bytes, Line, NoMemory};
use std::alloc::Global;

/// How many endpoints the document has; their ids are the numbers below it.
const ENDPOINTS: u16 = 4;

fn tone_words(line: &mut Line, keyword: &[u8], seed: u32)
    requires { length line.old + length keyword.now ≤ 400 }
    ensures text { line.new ≡ line.old ++ tone_text keyword.now seed }
    ensures short { length line.new ≤ length line.old + length keyword.now + 27 }
{
    line.text(keyword);
    line.spaced(u64::from(seed));
    line.text(b" 1000\n");
}

/// Line 1, and the tones of both ends.
fn put_opening(text: &mut Bytes, seed: u32) -> Result<(), NoMemory>
    ensures { OnOk result (text.new ≡ text.old ++ opening_text seed) }
{
    let mut line = Line::new();
    line.text(b"fronthaul 1\n");
    tone_words(&mut line, b"source", seed);
    tone_words(&mut line, b"antenna", seed);
    text.push_all(line.as_slice())
}

fn put_endpoint(text: &mut Bytes, e: u16) -> Result<(), NoMemory>
    ensures { OnOk result (text.new ≡ text.old ++ endpoint_text e) }
{
    let mut line = Line::new();
    line.text(b"endpoint ");
    line.hex4(e);
    line.text(b" ordinary 30 106 static bfp9\n");
    text.push_all(line.as_slice())
}

fn put_endpoints(text: &mut Bytes) -> Result<(), NoMemory>
    ensures { OnOk result (text.new ≡ text.old ++ each endpoint_text 4) }
{
    for e in 0..ENDPOINTS {
        put_endpoint(text, e)?;
    }
    Ok(())
}

/// The word of the slot's direction, and a space.
fn kind_word(n: u32) -> &'static [u8]
    ensures text { result.now ≡ kind_text n }
    ensures short { length result.now ≤ 3 }
{
    if n % 4 == 3 { b"ul " } else { b"dl " }
}

/// The keyword, the kind and the endpoint's id.
#[tactic(auto, unfolding(crate::specs::Generated::kind_words))]
fn kind_words(line: &mut Line, n: u32, e: u16)
    requires { line.old ≡ [] }
    ensures text { line.new ≡ kind_words n e }
    ensures short { length line.new ≤ 12 }
{
    line.text(b"plan ");
    line.text(kind_word(n));
    line.hex4(e);
}

/// The words of the slot, counted from the start of frame 1.
#[tactic(auto, unfolding(crate::specs::Generated::slot_text))]
fn slot_words(line: &mut Line, n: u32)
    requires { length line.old ≤ 20 }
    ensures text { line.new ≡ line.old ++ slot_text n }
    ensures short { length line.new ≤ length line.old + 63 }
{
    line.spaced(u64::from(n / 20) + 1);
    line.spaced(u64::from(n / 2 % 10));
    line.spaced(u64::from(n % 2));
}

fn plan_words(line: &mut Line, n: u32, e: u16)
    requires { line.old ≡ [] }
    ensures { line.new ≡ plan_text n e }
{
    kind_words(line, n, e);
    slot_words(line, n);
    line.text(b" 0 14 0 106 fff");
    line.spaced(u64::from(n % 4_000) + 1);
    line.text(b" 0\n");
}

fn put_plan(text: &mut Bytes, n: u32, e: u16) -> Result<(), NoMemory>
    ensures { OnOk result (text.new ≡ text.old ++ plan_text n e) }
{
    let mut line = Line::new();
    plan_words(&mut line, n, e);
    text.push_all(line.as_slice())
}

/// The lines of the plan for one slot.
fn put_slot(text: &mut Bytes, n: u32) -> Result<(), NoMemory>
    ensures { OnOk result (text.new ≡ text.old ++ plans_text n) }
{
    for e in 0..ENDPOINTS {
        put_plan(text, n, e)?;
    }
    Ok(())
}

fn put_slots(text: &mut Bytes, slots: u32) -> Result<(), NoMemory>
    ensures { OnOk result (text.new ≡ text.old ++ each plans_text slots) }
{
    for n in 0..slots {
        put_slot(text, n)?;
    }
    Ok(())
}

fn put_delivery(text: &mut Bytes, seed: u32, j: u32) -> Result<(), NoMemory>
    ensures { OnOk result (text.new ≡ text.old ++ deliver_text seed j) }
{
    let mut line = Line::new();
    line.text(b"deliver dl u");
    line.spaced(u64::from(j) * 10 + u64::from(seed % 10) + 1);
    line.text(b" 50000 60000\n");
    text.push_all(line.as_slice())
}

fn put_deliveries(text: &mut Bytes, seed: u32, slots: u32) -> Result<(), NoMemory>
    ensures { OnOk result (text.new ≡ text.old ++ each (deliver_text seed) slots) }
{
    for j in 0..slots {
        put_delivery(text, seed, j)?;
    }
    Ok(())
}

/// Writes the document of a seed and a number of slots from 1 to 400: four endpoints of 30 kHz with 106 PRBs in block floating
/// point, each with a line of the plan for each slot, and of each slot one frame of data that is received twice.
pub fn write(alloc: Global, seed: u32, slots: u32) -> Result<Bytes, NoMemory>
    requires some { 1 ≤ slots }
    requires most { slots ≤ 400 }
    ensures { IfOk result (λ text. text ≡ generated seed slots) }
{
    let mut text = Bytes::new(alloc);
    put_opening(&mut text, seed)?;
    put_endpoints(&mut text)?;
    put_slots(&mut text, slots)?;
    put_deliveries(&mut text, seed, slots)?;
    Ok(text)
}
