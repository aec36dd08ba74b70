// `windows`: the windows, the rings and the check of a document.
ghost use Rattle.std.specs.Prelude.{◌≡◌};
ghost use Rattle.fh_document.specs.Document.{document_of};
ghost use Rattle.window_config.specs.Configs.{IsConfig};
ghost use Rattle.window_config.specs.Limits.{IsWithinLimits};
ghost use Rattle.top_call.specs.Answers.{checked_status, of_document, windows_shown};
ghost use Rattle.top_call.specs.Run.{Performs};

use crate::endings::{ending_of, unread_status};
use crate::status::Status;
use fh_base::Sink;
use fh_document::read;
use std::alloc::Global;
use window_config::{Config, Delays, check};
use window_plan::put_windows;

/// Reads a document and writes its windows, its rings and its check.
pub(crate) fn write_windows<K: Sink>(alloc: Global, bytes: &[u8], out: &mut K) -> Status
    ensures { Performs (of_document (λ d. windows_shown d.config) (document_of bytes.now)) (K.written out.old) (K.written out.new) (K.faults out.old) (K.faults out.new) result }
{
    match read(alloc, bytes) {
        Ok(document) => show_windows(&document.config, out),
        Err(fault) => unread_status(fault),
    }
}

/// Writes the windows of a configuration.
fn show_windows<K: Sink>(config: &Config, out: &mut K) -> Status
    requires { IsConfig config.now }
    ensures { Performs (windows_shown config.now) (K.written out.old) (K.written out.new) (K.faults out.old) (K.faults out.new) result }
{
    let status = checked_status(&config.delays);
    ending_of(put_windows(config, out), status)
}

/// How a run ends that shows windows: with the first relation that fails.
fn checked_status(delays: &Delays) -> Status
    requires { IsWithinLimits delays.now }
    ensures { result ≡ checked_status delays.now }
{
    match check(delays) {
        Ok(()) => Status::Done,
        Err(failing) => Status::CheckFails(failing),
    }
}
