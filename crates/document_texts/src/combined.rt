// The lines of all combined cells.
ghost use Rattle.std.specs.Prelude.{◌≡◌, ◌++◌, OnOk, OnErr};
ghost use Rattle.std.specs.List.{flat_map};
ghost use Rattle.std.specs.Io.KnownBytes.{append_known};
ghost use Rattle.fh_base.specs.Causes.{HasSinkCause};
ghost use Rattle.fh_base.specs.Told.{WritesFront, WritesPart};
ghost use Rattle.fh_base.specs.Owed.{Carried};
ghost use Rattle.document_texts.specs.Lines.{mixed_text, mixes_text};

use crate::mixes::{put_mix_back, put_mix_front};
use fh_base::{Line, OwedBytes, Sink, SinkFault};
use shared_cell::{Mixed, Mixer};

// Tells the line of a combined cell.
fn tell_cell<K: Sink>(
    m: &Mixed,
    line: &mut Line,
    owed: &mut OwedBytes,
    out: &mut K,
) -> Result<(), SinkFault>
    ensures carried { OnOk result (Carried (K.written out.old) owed.old (mixed_text m.now) (K.written out.new) owed.new) }
    ensures part { OnErr result (WritesPart (K.written out.old) (K.written out.new) (owed.old ++ mixed_text m.now)) }
    ensures cause { HasSinkCause (K.faults out.old) (K.faults out.new) (K.refusals out.old) (K.refusals out.new) result }
{
    put_mix_front(m, line);
    owed.tell(line.as_slice(), out)?;
    put_mix_back(m, line);
    owed.tell(line.as_slice(), out)
}

// Tells the lines of combined cells.
fn tell_cells<K: Sink>(cells: &[Mixed], owed: &mut OwedBytes, out: &mut K) -> Result<(), SinkFault>
    ensures carried { OnOk result (Carried (K.written out.old) owed.old (flat_map mixed_text cells.now) (K.written out.new) owed.new) }
    ensures part { OnErr result (WritesPart (K.written out.old) (K.written out.new) (owed.old ++ flat_map mixed_text cells.now)) }
    ensures cause { HasSinkCause (K.faults out.old) (K.faults out.new) (K.refusals out.old) (K.refusals out.new) result }
{
    let mut line = Line::new();
    for m in cells {
        tell_cell(m, &mut line, owed, out)?;
    }
    Ok(())
}

/// Writes the line `combined`, the lines of a mixer's combined cells in its order, and the line `end`.
///
/// # Errors
///
/// `Failed` exactly where the sink's count of faults rose, and `NoMemory` exactly where its count of refusals rose. A front part of the text
/// was written and not all.
pub fn put_combined<K: Sink>(mixer: &Mixer, out: &mut K) -> Result<(), SinkFault>
    ensures ok { OnOk result (K.written out.new ≡ append_known (K.written out.old) (mixes_text mixer.now)) }
    ensures front { WritesFront (K.written out.old) (K.written out.new) (mixes_text mixer.now) }
    ensures part { OnErr result (WritesPart (K.written out.old) (K.written out.new) (mixes_text mixer.now)) }
    ensures cause { HasSinkCause (K.faults out.old) (K.faults out.new) (K.refusals out.old) (K.refusals out.new) result }
{
    let mut owed = OwedBytes::new();
    owed.tell(b"combined\n", out)?;
    tell_cells(mixer.as_slice(), &mut owed, out)?;
    owed.tell(b"end\n", out)?;
    owed.push_out(out)
}
