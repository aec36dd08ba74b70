// `fit`: what breaks the windows of a document, and the greatest windows that fit.
ghost use Rattle.std.specs.Prelude.{◌≡◌};
ghost use Rattle.fh_document.specs.Document.{document_of};
ghost use Rattle.window_config.specs.Limits.{IsWithinLimits};
ghost use Rattle.top_call.specs.Answers.{fit_shown, fitted_status, of_document};
ghost use Rattle.top_call.specs.Run.{Performs};

use crate::endings::{ending_of, unread_status};
use crate::status::Status;
use fh_base::Sink;
use fh_document::read;
use std::alloc::Global;
use window_config::Delays;
use window_plan::{fit, put_fit};

/// Reads a document and writes what breaks its windows, and the greatest that fit.
pub(crate) fn write_fit<K: Sink>(alloc: Global, bytes: &[u8], out: &mut K) -> Status
    ensures { Performs (of_document (λ d. fit_shown d.config.delays) (document_of bytes.now)) (K.written out.old) (K.written out.new) (K.faults out.old) (K.faults out.new) result }
{
    match read(alloc, bytes) {
        Ok(document) => show_fit(&document.config.delays, out),
        Err(fault) => unread_status(fault),
    }
}

/// Writes what breaks the windows of a delay profile, and the greatest that fit.
fn show_fit<K: Sink>(delays: &Delays, out: &mut K) -> Status
    requires { IsWithinLimits delays.now }
    ensures { Performs (fit_shown delays.now) (K.written out.old) (K.written out.new) (K.faults out.old) (K.faults out.new) result }
{
    let status = fitted_status(delays);
    ending_of(put_fit(delays, out), status)
}

/// How a run ends that shows a fit: with the first window that does not fit.
fn fitted_status(delays: &Delays) -> Status
    requires { IsWithinLimits delays.now }
    ensures { result ≡ fitted_status delays.now }
{
    match fit(delays) {
        Ok(_) => Status::Done,
        Err(refusal) => Status::NoFit(refusal),
    }
}
