// Bytes that are owed to a sink, told as an air tells them.
ghost use Rattle.std.specs.Prelude.{◌≡◌, [], OnOk, OnErr, IfErr};
ghost use Rattle.std.specs.Io.KnownBytes.{append_known};
ghost use Rattle.fh_base.specs.Told.{WritesFront, WritesPart};
ghost use Rattle.air_source.specs.Causes.{HasAirCause};
ghost use Rattle.fh_base.specs.Owed.{Carried};
ghost use Rattle.air_source.specs.SinkCauses.{HasRefusal};
ghost use Rattle.air_source.specs.Stopping.{Halted, air_fault};

use crate::AirFault;
use fh_base::{OwedBytes, Sink, SinkFault};

/// A sink's fault, as an air tells it.
fn air_fault(fault: SinkFault) -> AirFault
    ensures { result ≡ air_fault fault }
{
    match fault {
        SinkFault::Failed => AirFault::Failed,
        SinkFault::NoMemory => AirFault::NoMemory,
    }
}

/// Owes a text of any length after what is owed, and writes what does not fit.
///
/// # Errors
///
/// `Failed` exactly where the sink's count of faults rose, and `NoMemory` exactly where its count of refusals rose. A front
/// part of what was owed and of the text was written and not all.
pub fn tell<K: Sink>(owed: &mut OwedBytes, text: &[u8], sink: &mut K) -> Result<(), AirFault>
    ensures carried { OnOk result (Carried (K.written sink.old) owed.old text.now (K.written sink.new) owed.new) }
    ensures stop { IfErr result (λ f. Halted f (K.written sink.old) (K.faults sink.old) (K.refusals sink.old) owed.old text.now (K.written sink.new) (K.faults sink.new) (K.refusals sink.new)) }
    ensures cause { HasAirCause (K.faults sink.old) (K.faults sink.new) result }
    ensures refusal { HasRefusal (K.refusals sink.old) (K.refusals sink.new) result }
{
    match owed.tell(text, sink) {
        Ok(()) => Ok(()),
        Err(fault) => Err(air_fault(fault)),
    }
}

/// Writes what is owed, and then owes nothing. After an error a front part of it was written and not all.
///
/// # Errors
///
/// `Failed` exactly where the sink's count of faults rose, and `NoMemory` exactly where its count of refusals rose.
pub fn push_out<K: Sink>(owed: &mut OwedBytes, sink: &mut K) -> Result<(), AirFault>
    ensures all { OnOk result (K.written sink.new ≡ append_known (K.written sink.old) owed.old) }
    ensures owed { OnOk result (owed.new ≡ []) }
    ensures front { WritesFront (K.written sink.old) (K.written sink.new) owed.old }
    ensures part { OnErr result (WritesPart (K.written sink.old) (K.written sink.new) owed.old) }
    ensures cause { HasAirCause (K.faults sink.old) (K.faults sink.new) result }
    ensures refusal { HasRefusal (K.refusals sink.old) (K.refusals sink.new) result }
{
    match owed.push_out(sink) {
        Ok(()) => Ok(()),
        Err(fault) => Err(air_fault(fault)),
    }
}
