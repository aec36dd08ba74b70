// Lines on their way to a sink, as text or as JSON.
ghost use Rattle.std.specs.Prelude.{◌≡◌, ◌≤◌, ◌++◌, [], ◌∷◌, length, OnOk, OnErr};
ghost use Rattle.fh_base.specs.Told.{WritesFront, WritesPart};
ghost use Rattle.fh_base.specs.Owed.{Carried};
ghost use Rattle.serde_json.specs.Written.{comma_if, compact_text};
ghost use Rattle.capture_show.specs.Faults.{HasWriteCause};
ghost use Rattle.capture_show.specs.Texts.{member_text, line_text, object_of};
ghost use Rattle.capture_show.specs.Lines.{kind_text};
ghost use Rattle.std.specs.List.{flat_map};

use crate::line::Shown;
use crate::names::{is_bare, kind_text, name_text};
use crate::objects::object_text;
use crate::opening::{ending, opening};
use crate::values::Member;
use crate::words::put_field;
use fh_base::{Line, OwedBytes, Sink, SinkFault};
use member_lines::lead;
use std::alloc::Global;

/// What prints lines, one after the other.
#[derive(Drop)]
pub struct Printer {
    pub(crate) alloc: Global,
    pub(crate) json: bool,
    // whether a line was told
    pub(crate) later: bool,
    pub(crate) owed: OwedBytes,
}

// Writes a member over an empty line.
fn put_member(line: &mut Line, bare: bool, m: Member)
    requires { line.old ≡ [] }
    ensures { line.new ≡ member_text bare m }
{
    if bare {
        line.text(b" ");
    } else {
        lead(line, name_text(m.name).as_bytes());
    }
    put_field(line, m.field);
}

// Tells a member, by way of a line.
fn tell_member<K: Sink>(
    bare: bool,
    m: Member,
    line: &mut Line,
    owed: &mut OwedBytes,
    out: &mut K,
) -> Result<(), SinkFault>
    ensures carried { OnOk result (Carried (K.written out.old) owed.old (member_text bare m) (K.written out.new) owed.new) }
    ensures part { OnErr result (WritesPart (K.written out.old) (K.written out.new) (owed.old ++ member_text bare m)) }
    ensures cause { HasWriteCause (K.faults out.old) (K.faults out.new) result }
{
    line.clear();
    put_member(line, bare, m);
    owed.tell(line.as_slice(), out)
}

// Tells some members.
fn tell_members<K: Sink>(
    bare: bool,
    members: &[Member],
    owed: &mut OwedBytes,
    out: &mut K,
) -> Result<(), SinkFault>
    ensures carried { OnOk result (Carried (K.written out.old) owed.old (flat_map (member_text bare) members.now) (K.written out.new) owed.new) }
    ensures part { OnErr result (WritesPart (K.written out.old) (K.written out.new) (owed.old ++ flat_map (member_text bare) members.now)) }
    ensures cause { HasWriteCause (K.faults out.old) (K.faults out.new) result }
{
    let mut line = Line::new();
    for m in members {
        tell_member(bare, *m, &mut line, owed, out)?;
    }
    Ok(())
}

// Tells a line of text.
#[tactic(auto, unfolding(crate::specs::Texts::line_text))]
fn tell_text<K: Sink>(shown: &Shown, owed: &mut OwedBytes, out: &mut K) -> Result<(), SinkFault>
    ensures carried { OnOk result (Carried (K.written out.old) owed.old (line_text shown.now) (K.written out.new) owed.new) }
    ensures part { OnErr result (WritesPart (K.written out.old) (K.written out.new) (owed.old ++ line_text shown.now)) }
    ensures cause { HasWriteCause (K.faults out.old) (K.faults out.new) result }
{
    owed.tell(kind_text(shown.kind()).as_bytes(), out)?;
    tell_members(is_bare(shown.kind()), shown.members(), owed, out)?;
    owed.tell(b"\n", out)
}

// What is before an object.
fn comma(later: bool) -> &'static [u8]
    ensures { result.now ≡ comma_if later }
{
    if later { b"," } else { b"" }
}

// Tells the object of a line, after a comma where another precedes it.
fn tell_object<K: Sink>(
    alloc: Global,
    later: bool,
    shown: &Shown,
    owed: &mut OwedBytes,
    out: &mut K,
) -> Result<(), SinkFault>
    ensures carried { OnOk result (Carried (K.written out.old) owed.old (comma_if later ++ compact_text (object_of shown.now)) (K.written out.new) owed.new) }
    ensures part { OnErr result (WritesPart (K.written out.old) (K.written out.new) (owed.old ++ (comma_if later ++ compact_text (object_of shown.now)))) }
    ensures cause { HasWriteCause (K.faults out.old) (K.faults out.new) result }
{
    let Ok(text) = object_text(alloc, shown) else {
        return Err(SinkFault::NoMemory);
    };
    owed.tell(comma(later), out)?;
    owed.tell(text.as_slice(), out)
}

impl Printer {
    ghost use Rattle.std.specs.Prelude.{◌≡◌, ◌++◌, ◌∷◌, [], OnOk, OnErr, Bool};
    ghost use Rattle.std.specs.Io.KnownBytes.{append_known};
    ghost use Rattle.capture_show.specs.Texts.{piece};
    ghost use Rattle.capture_show.specs.Printing.{Told, Stopped, state_of};
    ghost use Rattle.capture_show.specs.Texts.{front_text, end_text};

    /// A printer that told nothing.
    pub fn new(alloc: Global, json: bool) -> Printer
        ensures json { result.json ≡ json }
        ensures later { result.later ≡ Bool.false }
        ensures owed { result.owed ≡ [] }
    {
        Printer {
            alloc,
            json,
            later: false,
            owed: OwedBytes::new(),
        }
    }

    // Tells the piece of a line.
    fn tell_piece<K: Sink>(&mut self, shown: &Shown, out: &mut K) -> Result<(), SinkFault>
        ensures carried { OnOk result (Carried (K.written out.old) self.old.owed (piece self.old.json self.old.later shown.now) (K.written out.new) self.new.owed) }
        ensures part { OnErr result (WritesPart (K.written out.old) (K.written out.new) (self.old.owed ++ piece self.old.json self.old.later shown.now)) }
        ensures cause { HasWriteCause (K.faults out.old) (K.faults out.new) result }
        ensures json { self.new.json ≡ self.old.json }
    {
        if self.json {
            tell_object(self.alloc, self.later, shown, &mut self.owed, out)
        } else {
            tell_text(shown, &mut self.owed, out)
        }
    }

    /// Tells a line.
    pub fn tell<K: Sink>(&mut self, shown: &Shown, out: &mut K) -> Result<(), SinkFault>
        ensures told { OnOk result (Told (state_of self.old (K.written out.old)) (state_of self.new (K.written out.new)) (shown.now ∷ [])) }
        ensures part { OnErr result (Stopped (state_of self.old (K.written out.old)) (K.written out.new) (shown.now ∷ [])) }
        ensures cause { HasWriteCause (K.faults out.old) (K.faults out.new) result }
    {
        self.tell_piece(shown, out)?;
        self.later = true;
        Ok(())
    }

    /// Tells what is before the lines.
    pub fn open<K: Sink>(&mut self, out: &mut K) -> Result<(), SinkFault>
        ensures carried { OnOk result (Carried (K.written out.old) self.old.owed (front_text self.old.json) (K.written out.new) self.new.owed) }
        ensures part { OnErr result (WritesPart (K.written out.old) (K.written out.new) (self.old.owed ++ front_text self.old.json)) }
        ensures cause { HasWriteCause (K.faults out.old) (K.faults out.new) result }
        ensures same { (self.new.json ≡ self.old.json) × (self.new.later ≡ self.old.later) }
    {
        self.owed.tell(opening(self.json), out)
    }

    /// Writes all that was told, and what is after it.
    pub fn close<K: Sink>(&mut self, out: &mut K) -> Result<(), SinkFault>
        ensures all { OnOk result (K.written out.new ≡ append_known (K.written out.old) (self.old.owed ++ end_text self.old.json)) }
        ensures front { WritesFront (K.written out.old) (K.written out.new) (self.old.owed ++ end_text self.old.json) }
        ensures part { OnErr result (WritesPart (K.written out.old) (K.written out.new) (self.old.owed ++ end_text self.old.json)) }
        ensures cause { HasWriteCause (K.faults out.old) (K.faults out.new) result }
    {
        self.owed.tell(ending(self.json), out)?;
        self.owed.push_out(out)
    }
}
