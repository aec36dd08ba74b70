// A run.
ghost use Rattle.std.specs.Prelude.{◌≡◌, false};
ghost use Rattle.command_words.specs.Words.{command_of};
ghost use Rattle.fh_base.specs.Told.{WritesFront};
ghost use Rattle.top_call.specs.Answers.{is_reading};
ghost use Rattle.top_call.specs.Run.{Outcome, TellsLine};
ghost use Rattle.top_call.specs.Statuses.{status_line};

use crate::commands::{perform, reads};
use crate::endings::source_status;
use crate::messages::write_message;
use crate::status::Status;
use command_words::{WordsFault, read_words};
use fh_base::{Bytes, INPUT_LIMIT, List, Sink, Source, read_all};
use std::alloc::Global;

/// Does what the words ask for. It reads all of `source` where the command reads, writes the text to `out`, and where it is not done
/// one line to `err`.
pub fn run<S: Source, K: Sink, E: Sink>(
    alloc: Global,
    words: &List<Bytes>,
    source: &mut S,
    out: &mut K,
    err: &mut E,
) -> Status
    ensures outcome { Outcome words.now (S.left source.old) (S.left source.new) (S.faults source.old) (S.faults source.new) (K.written out.old) (K.written out.new) (K.faults out.old) (K.faults out.new) result }
    // Words that are no command, and a command that reads nothing, leave the source as it was.
    ensures still { is_reading (command_of words.now) ≡ false → source.new ≡ source.old }
    ensures err_front { WritesFront (E.written err.old) (E.written err.new) (status_line result) }
    ensures err_told { TellsLine (E.written err.old) (E.written err.new) (status_line result) (E.faults err.old) (E.faults err.new) (E.refusals err.old) (E.refusals err.new) }
{
    let status = work(alloc, words, source, out);
    tell(status, err);
    status
}

/// All but the line on `err`.
fn work<S: Source, K: Sink>(
    alloc: Global,
    words: &List<Bytes>,
    source: &mut S,
    out: &mut K,
) -> Status
    ensures outcome { Outcome words.now (S.left source.old) (S.left source.new) (S.faults source.old) (S.faults source.new) (K.written out.old) (K.written out.new) (K.faults out.old) (K.faults out.new) result }
    ensures still { is_reading (command_of words.now) ≡ false → source.new ≡ source.old }
{
    let command = match read_words(alloc, words) {
        Ok(command) => command,
        Err(WordsFault::BadWords) => return Status::BadWords,
        Err(WordsFault::NoMemory) => return Status::NoMemory,
    };
    if !reads(command) {
        return perform(alloc, command, b"", out);
    }
    match read_all(alloc, source, INPUT_LIMIT) {
        Ok(bytes) => perform(alloc, command, bytes.as_slice(), out),
        Err(fault) => source_status(fault),
    }
}

/// Writes the status's line, as far as it goes.
fn tell<E: Sink>(status: Status, err: &mut E)
    ensures front { WritesFront (E.written err.old) (E.written err.new) (status_line status) }
    ensures told { TellsLine (E.written err.old) (E.written err.new) (status_line status) (E.faults err.old) (E.faults err.new) (E.refusals err.old) (E.refusals err.new) }
{
    let _ = write_message(status, err);
}
