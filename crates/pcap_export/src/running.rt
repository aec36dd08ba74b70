// A run.
ghost use Rattle.std.specs.Prelude.{◌≡◌, ◌⊎◌, IsNone};
ghost use Rattle.fh_base.specs.Causes.{Rose};
ghost use Rattle.fh_base.specs.Told.{WritesFront, WritesWholeOr};
ghost use Rattle.pcap_export.specs.Answers.{ending_of, exported, source_status};
ghost use Rattle.pcap_export.specs.Run.{Exports, Outcome};
ghost use Rattle.pcap_export.specs.Statuses.{line_of};
ghost use Rattle.pcap_export.specs.Ways.{ways_of};

use crate::checking::check;
use crate::messages::write_message;
use crate::status::Status;
use crate::ways::Ways;
use crate::words::ways_of;
use crate::writing::put_pcap;
use fh_base::{Bytes, INPUT_LIMIT, List, ReadAllFault, Sink, SinkFault, Source, read_all};
use std::alloc::Global;

/// Writes the frames of a capture as a pcap file: `words` are none, for the frames to both units, or `dl` or `ul`. It reads all of
/// `source`, writes the file to `out`, and where it is not done one line to `err`.
pub fn run<S: Source, K: Sink, E: Sink>(
    alloc: Global,
    words: &List<Bytes>,
    source: &mut S,
    out: &mut K,
    err: &mut E,
) -> Status
    ensures outcome { Outcome words.now (S.left source.old) (S.left source.new) (S.faults source.old) (S.faults source.new) (K.written out.old) (K.written out.new) (K.faults out.old) (K.faults out.new) result }
    // Words that are no ways leave the source as it was.
    ensures still { IsNone (ways_of words.now) → source.new ≡ source.old }
    ensures err_front { WritesFront (E.written err.old) (E.written err.new) (line_of result) }
    ensures err_whole { WritesWholeOr (E.written err.old) (E.written err.new) (line_of result)
        (Rose (E.faults err.old) (E.faults err.new) ⊎ Rose (E.refusals err.old) (E.refusals err.new)) }
{
    let status = work(alloc, words, source, out);
    tell(status, err);
    status
}

// All but the line on `err`.
fn work<S: Source, K: Sink>(
    alloc: Global,
    words: &List<Bytes>,
    source: &mut S,
    out: &mut K,
) -> Status
    ensures outcome { Outcome words.now (S.left source.old) (S.left source.new) (S.faults source.old) (S.faults source.new) (K.written out.old) (K.written out.new) (K.faults out.old) (K.faults out.new) result }
    ensures still { IsNone (ways_of words.now) → source.new ≡ source.old }
{
    let Some(ways) = ways_of(words) else {
        return Status::BadWords;
    };
    match read_all(alloc, source, INPUT_LIMIT) {
        Ok(bytes) => export(bytes.as_slice(), ways, out),
        Err(fault) => source_status(fault),
    }
}

// Writes the file of a whole capture.
fn export<K: Sink>(bytes: &[u8], ways: Ways, out: &mut K) -> Status
    ensures { Exports (exported ways bytes.now) (K.written out.old) (K.written out.new) (K.faults out.old) (K.faults out.new) result }
{
    match check(bytes, ways) {
        Ok(()) => ending_of(put_pcap(bytes, ways, out)),
        Err(refusal) => Status::BadCapture(refusal),
    }
}

// How a run ends whose whole file was to be written.
fn ending_of(written: Result<(), SinkFault>) -> Status
    ensures { result ≡ ending_of written }
{
    match written {
        Ok(()) => Status::Done,
        Err(SinkFault::Failed) => Status::WriteFault,
        Err(SinkFault::NoMemory) => Status::NoMemory,
    }
}

// How a run ends whose capture was not read to its end.
fn source_status(fault: ReadAllFault) -> Status
    ensures { result ≡ source_status fault }
{
    match fault {
        ReadAllFault::ReadFault => Status::ReadFault,
        ReadAllFault::TooLong => Status::TooLong,
        ReadAllFault::NoMemory => Status::NoMemory,
    }
}

// Writes the status's line, as far as it goes.
fn tell<E: Sink>(status: Status, err: &mut E)
    ensures front { WritesFront (E.written err.old) (E.written err.new) (line_of status) }
    ensures whole { WritesWholeOr (E.written err.old) (E.written err.new) (line_of status)
        (Rose (E.faults err.old) (E.faults err.new) ⊎ Rose (E.refusals err.old) (E.refusals err.new)) }
{
    let _ = write_message(status, err);
}
