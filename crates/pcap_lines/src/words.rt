// The words of a line.
ghost use Rattle.std.specs.Prelude.{◌≡◌, ◌+◌, ◌≤◌, ◌++◌, [], codes, length, OnOk, OnErr};
ghost use Rattle.fh_base.specs.Causes.{HasSinkCause};
ghost use Rattle.fh_base.specs.Told.{WritesPart};
ghost use Rattle.fh_base.specs.Owed.{Carried};
ghost use Rattle.fh_document.specs.LineWords.{hex_text, frame_word};
ghost use Rattle.pcap_lines.specs.Texts.{opening_text};

use crate::pieces::{PIECE, TEXT, spell};
use air_source::Side;
use fh_base::{Line, OwedBytes, Sink, SinkFault};
use pcap_frames::PcapFrame;

/// Appends what is before a frame's word, to an empty line.
pub fn opening(line: &mut Line, f: &PcapFrame<'_>)
    requires { line.old ≡ [] }
    ensures { line.new ≡ opening_text f.now.side f.now.at }
{
    line.text(match f.side {
        Side::Ru => b"inject dl ",
        Side::Du => b"inject ul ",
    });
    line.signed(f.at);
    line.text(b" ");
}

// Tells two digits for each byte of a piece, by a text that they are put into.
fn tell_piece<K: Sink>(
    piece: &[u8],
    text: &mut [u8; TEXT],
    owed: &mut OwedBytes,
    out: &mut K,
) -> Result<(), SinkFault>
    requires { length piece.now ≤ PIECE }
    ensures carried { OnOk result (Carried (K.written out.old) owed.old (hex_text piece.now) (K.written out.new) owed.new) }
    ensures part { OnErr result (WritesPart (K.written out.old) (K.written out.new) (owed.old ++ hex_text piece.now)) }
    ensures cause { HasSinkCause (K.faults out.old) (K.faults out.new) (K.refusals out.old) (K.refusals out.new) result }
{
    spell(piece, text);
    owed.tell(&text[..2 * piece.len()], out)
}

// Tells two digits for each byte of the last piece, and a line feed.
fn tell_last<K: Sink>(
    piece: &[u8],
    text: &mut [u8; TEXT],
    owed: &mut OwedBytes,
    out: &mut K,
) -> Result<(), SinkFault>
    requires { length piece.now ≤ PIECE }
    ensures carried { OnOk result (Carried (K.written out.old) owed.old (hex_text piece.now ++ codes "\n") (K.written out.new) owed.new) }
    ensures part { OnErr result (WritesPart (K.written out.old) (K.written out.new) (owed.old ++ (hex_text piece.now ++ codes "\n"))) }
    ensures cause { HasSinkCause (K.faults out.old) (K.faults out.new) (K.refusals out.old) (K.refusals out.new) result }
{
    spell(piece, text);
    let end = 2 * piece.len();
    text[end] = b'\n';
    owed.tell(&text[..end + 1], out)
}

// Tells two digits for each byte, and a line feed.
fn tell_digits<K: Sink>(
    bytes: &[u8],
    text: &mut [u8; TEXT],
    owed: &mut OwedBytes,
    out: &mut K,
) -> Result<(), SinkFault>
    ensures carried { OnOk result (Carried (K.written out.old) owed.old (hex_text bytes.now ++ codes "\n") (K.written out.new) owed.new) }
    ensures part { OnErr result (WritesPart (K.written out.old) (K.written out.new) (owed.old ++ (hex_text bytes.now ++ codes "\n"))) }
    ensures cause { HasSinkCause (K.faults out.old) (K.faults out.new) (K.refusals out.old) (K.refusals out.new) result }
{
    let mut place = 0;
    while bytes.len() - place > PIECE {
        tell_piece(&bytes[place..place + PIECE], text, owed, out)?;
        place += PIECE;
    }
    tell_last(&bytes[place..], text, owed, out)
}

/// Tells a frame's word and a line feed, by a text that its digits are put into.
pub fn tell_frame<K: Sink>(
    frame: &[u8],
    text: &mut [u8; TEXT],
    owed: &mut OwedBytes,
    out: &mut K,
) -> Result<(), SinkFault>
    ensures carried { OnOk result (Carried (K.written out.old) owed.old (frame_word frame.now ++ codes "\n") (K.written out.new) owed.new) }
    ensures part { OnErr result (WritesPart (K.written out.old) (K.written out.new) (owed.old ++ (frame_word frame.now ++ codes "\n"))) }
    ensures cause { HasSinkCause (K.faults out.old) (K.faults out.new) (K.refusals out.old) (K.refusals out.new) result }
{
    if frame.is_empty() {
        owed.tell(b"-\n", out)
    } else {
        tell_digits(frame, text, owed, out)
    }
}
