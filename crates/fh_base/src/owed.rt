// Text that is collected and written in large pieces.
ghost use Rattle.std.specs.Prelude.{◌≡◌, [], ◌++◌, ◌+◌, ◌≤◌, ◌<◌, Ok, length, OnOk, OnErr};
ghost use Rattle.std.specs.Io.KnownBytes.{append_known};
ghost use Rattle.fh_base.specs.Causes.{HasSinkCause};
ghost use Rattle.fh_base.specs.Told.{WritesFront, WritesPart};
ghost use Rattle.fh_base.specs.Owed.{Carried};

use crate::{Sink, SinkFault, write_all_to};
use std::marker::Model;

/// How many bytes may be owed.
pub const ROOM: usize = 8192;

/// Up to [`ROOM`] bytes that are owed to a sink, which every call is passed. Contracts see them as a
/// list.
///
/// After an error they are as they were before the call, and the sink took a front part of them and
/// of the text after them, and not all: whoever goes on after an error writes that part again.
#[derive(Drop)]
pub struct OwedBytes {
    bytes: [u8; ROOM],
    len: usize,
}

impl Model for OwedBytes {
    ghost use Rattle.std.specs.Prelude.{ℕ, List, ◌≤◌, take};

    ghost Value = { List ℕ };

    ghost view = { λ b. take b.len b.bytes };

    ghost invariant = { λ b. b.len ≤ 8192 };
}

impl OwedBytes {
    /// Nothing is owed. This takes no memory.
    pub fn new() -> OwedBytes
        ensures { result ≡ [] }
    {
        OwedBytes {
            bytes: [0; ROOM],
            len: 0,
        }
    }

    // What is owed.
    fn as_slice(&self) -> &[u8]
        ensures { result.now ≡ self.now }
    {
        &self.bytes[..self.len]
    }

    // Owes nothing more.
    #[inline]
    fn clear(&mut self)
        ensures { self.new ≡ [] }
    {
        self.len = 0;
    }

    // Owes a text that fits after what is owed.
    #[inline]
    fn append(&mut self, text: &[u8])
        requires { length self.old + length text.now ≤ ROOM }
        ensures { self.new ≡ self.old ++ text.now }
    {
        let at = self.len;
        self.bytes[at..at + text.len()].copy_from_slice(text);
        self.len = at + text.len();
    }

    // Writes what is owed, which stays owed.
    fn write<K: Sink>(&self, sink: &mut K) -> Result<(), SinkFault>
        ensures all { OnOk result (K.written sink.new ≡ append_known (K.written sink.old) self.now) }
        ensures front { WritesFront (K.written sink.old) (K.written sink.new) self.now }
        ensures part { OnErr result (WritesPart (K.written sink.old) (K.written sink.new) self.now) }
        ensures cause { HasSinkCause (K.faults sink.old) (K.faults sink.new) (K.refusals sink.old) (K.refusals sink.new) result }
    {
        write_all_to(sink, self.as_slice())
    }

    /// Writes what is owed, and then owes nothing.
    ///
    /// # Errors
    ///
    /// `Failed` exactly where the sink's count of faults rose, and `NoMemory` exactly where its count
    /// of refusals rose. A front part of what is owed was written and not all, and all of it stays
    /// owed.
    pub fn push_out<K: Sink>(&mut self, sink: &mut K) -> Result<(), SinkFault>
        ensures all { OnOk result (K.written sink.new ≡ append_known (K.written sink.old) self.old) }
        ensures owed { OnOk result (self.new ≡ []) }
        ensures front { WritesFront (K.written sink.old) (K.written sink.new) self.old }
        ensures part { OnErr result (WritesPart (K.written sink.old) (K.written sink.new) self.old) }
        ensures kept { OnErr result (self.new ≡ self.old) }
        ensures cause { HasSinkCause (K.faults sink.old) (K.faults sink.new) (K.refusals sink.old) (K.refusals sink.new) result }
    {
        self.write(sink)?;
        self.clear();
        Ok(())
    }

    // A text that does not fit after what is owed, but fits alone, is owed once that was written.
    fn owe_alone<K: Sink>(&mut self, text: &[u8], sink: &mut K) -> Result<(), SinkFault>
        requires { length text.now ≤ ROOM }
        ensures carried { OnOk result (Carried (K.written sink.old) self.old text.now (K.written sink.new) self.new) }
        ensures owed { OnOk result (self.new ≡ text.now) }
        ensures front { OnErr result (WritesFront (K.written sink.old) (K.written sink.new) (self.old ++ text.now)) }
        ensures part { OnErr result (WritesPart (K.written sink.old) (K.written sink.new) (self.old ++ text.now)) }
        ensures kept { OnErr result (self.new ≡ self.old) }
        ensures cause { HasSinkCause (K.faults sink.old) (K.faults sink.new) (K.refusals sink.old) (K.refusals sink.new) result }
    {
        self.push_out(sink)?;
        self.append(text);
        Ok(())
    }

    // A text that is longer than the room is written directly after what is owed.
    fn pass<K: Sink>(&mut self, text: &[u8], sink: &mut K) -> Result<(), SinkFault>
        ensures carried { OnOk result (Carried (K.written sink.old) self.old text.now (K.written sink.new) self.new) }
        ensures owed { OnOk result (self.new ≡ []) }
        ensures front { OnErr result (WritesFront (K.written sink.old) (K.written sink.new) (self.old ++ text.now)) }
        ensures part { OnErr result (WritesPart (K.written sink.old) (K.written sink.new) (self.old ++ text.now)) }
        ensures kept { OnErr result (self.new ≡ self.old) }
        ensures cause { HasSinkCause (K.faults sink.old) (K.faults sink.new) (K.refusals sink.old) (K.refusals sink.new) result }
    {
        self.write(sink)?;
        write_all_to(sink, text)?;
        self.clear();
        Ok(())
    }

    /// Owes a text of any length after what is owed.
    ///
    /// Where both fit the room nothing is written. Else what is owed is written, and the text is owed
    /// alone; one that is longer than the room is written too.
    ///
    /// # Errors
    ///
    /// `Failed` exactly where the sink's count of faults rose, and `NoMemory` exactly where its count
    /// of refusals rose. A front part of what is owed and of the text was written and not all, and
    /// what was owed before stays owed.
    pub fn tell<K: Sink>(&mut self, text: &[u8], sink: &mut K) -> Result<(), SinkFault>
        ensures carried { OnOk result (Carried (K.written sink.old) self.old text.now (K.written sink.new) self.new) }
        ensures fits { length self.old + length text.now ≤ ROOM → (result ≡ Ok tt) × (self.new ≡ self.old ++ text.now) × (sink.new ≡ sink.old) }
        ensures alone { ROOM < length self.old + length text.now → length text.now ≤ ROOM → OnOk result (self.new ≡ text.now) }
        ensures long { ROOM < length text.now → OnOk result (self.new ≡ []) }

        ensures front { OnErr result (WritesFront (K.written sink.old) (K.written sink.new) (self.old ++ text.now)) }
        ensures part { OnErr result (WritesPart (K.written sink.old) (K.written sink.new) (self.old ++ text.now)) }
        ensures kept { OnErr result (self.new ≡ self.old) }
        ensures cause { HasSinkCause (K.faults sink.old) (K.faults sink.new) (K.refusals sink.old) (K.refusals sink.new) result }
    {
        if text.len() <= ROOM - self.len {
            self.append(text);
            Ok(())
        } else if text.len() <= ROOM {
            self.owe_alone(text, sink)
        } else {
            self.pass(text, sink)
        }
    }
}
