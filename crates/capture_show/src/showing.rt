// A capture, shown.
ghost use Rattle.std.specs.Prelude.{◌≡◌, ℕ, Ok, Err, OnOk, OnErr, IfErr};
ghost use Rattle.std.specs.Io.KnownBytes.{append_known};
ghost use Rattle.fh_base.specs.Causes.{Counts};
ghost use Rattle.fh_base.specs.Told.{WritesFront, WritesPart};
ghost use Rattle.capture_records.specs.declared.refusals.CaptureWhy.{CaptureWhy};
ghost use Rattle.capture_records.specs.Reading.{checked};
ghost use Rattle.capture_show.specs.Faults.{has_write_fault, show_fault};
ghost use Rattle.capture_show.specs.Messages.{capture_lines};
ghost use Rattle.capture_show.specs.Texts.{lines_text};

use crate::capture_lines::tell_records;
use crate::printing::Printer;
use capture_records::{CaptureWhy, check};
use fh_base::{Sink, SinkFault};
use std::alloc::Global;
use thiserror::Error;

/// Why a capture was not shown whole.
#[derive(Clone, Copy, Debug, PartialEq, Eq, Error)]
pub enum ShowFault {
    /// A record is malformed.
    #[error("byte {place}: {why}")]
    BadCapture {
        /// The byte of the capture, from 0, at which the record begins.
        place: usize,
        why: CaptureWhy,
    },
    /// The sink failed: its count of faults rose.
    #[error("write fault")]
    WriteFault,
    /// Memory was refused.
    #[error("no memory")]
    NoMemory,
}

impl From<SinkFault> for ShowFault {
    ghost from_gives = { λ fault shown. shown ≡ show_fault fault };

    fn from(fault: SinkFault) -> Self {
        match fault {
            SinkFault::Failed => ShowFault::WriteFault,
            SinkFault::NoMemory => ShowFault::NoMemory,
        }
    }
}

/// Shows a capture: as lines of text, or where `json` as one array with an object for each line.
///
/// A `frame` line has the number of its record from 1, the way, the ticks and the bytes of the frame; a place is that of a message's
/// header in its frame. Commands are read with 14 symbols a slot and 64 slots a subframe. Data of subsequence 0 with four bytes or
/// more show their header without any test, and no sections, as a capture does not tell their format.
///
/// # Errors
///
/// `BadCapture` exactly where a record is malformed, at its place: all records are tested first, and nothing is written then. After
/// `WriteFault`, which occurs exactly where the sink's count of faults rose, and after `NoMemory` a front part of the text was written
/// and not all.
pub fn show<K: Sink>(alloc: Global, bytes: &[u8], json: bool, out: &mut K) -> Result<(), ShowFault>
    ensures ok { OnOk result (K.written out.new ≡ append_known (K.written out.old) (lines_text json (capture_lines bytes.now))) }
    ensures front { WritesFront (K.written out.old) (K.written out.new) (lines_text json (capture_lines bytes.now)) }
    ensures part { checked bytes.now ≡ Ok tt → OnErr result (WritesPart (K.written out.old) (K.written out.new) (lines_text json (capture_lines bytes.now))) }
    // a capture is refused at its first malformed record, and then nothing is written
    ensures malformed { IfErr (checked bytes.now) (λ r. (result ≡ Err (ShowFault.BadCapture r.place r.why)) × (out.new ≡ out.old)) }
    ensures refused { (place : ℕ) (why : CaptureWhy) → result ≡ Err (ShowFault.BadCapture place why) → checked bytes.now ≡ Err (record { place = place; why = why }) }
    ensures failed { Counts (has_write_fault result) (K.faults out.old) (K.faults out.new) }
{
    if let Err(refusal) = check(bytes) {
        return Err(ShowFault::BadCapture {
            place: refusal.place,
            why: refusal.why,
        });
    }
    let mut printer = Printer::new(alloc, json);
    printer.open(out)?;
    tell_records(bytes, &mut printer, out)?;
    printer.close(out).map_err(ShowFault::from)
}
