// A caller of ecpri_frames.
ghost use Rattle.std.specs.Prelude.{◌≡◌, IfOk, length};
ghost use Rattle.std.specs.Result.{result_err};
ghost use Rattle.ecpri_frames.specs.Gathering.{whole_messages};
ghost use Rattle.ecpri_frames.specs.Messages.{pdu};

use ecpri_frames::{PduRefusal, messages};

/// How many messages a frame carries, and an error exactly where it is malformed: its first fault.
pub fn message_count(frame: &[u8]) -> Result<usize, PduRefusal>
    ensures refusal { result_err result ≡ (pdu frame.now).refusal }
    ensures count { IfOk result (λ count. count ≡ length (whole_messages frame.now)) }
{
    let messages = messages(frame);
    match messages.refusal() {
        Some(refusal) => Err(refusal),
        None => Ok(messages.count()),
    }
}
