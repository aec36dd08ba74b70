// A caller of pcap_frames.
ghost use Rattle.std.specs.Prelude.{◌≡◌, IfErr, IfOk, OnOk, None, Ok, map};
ghost use Rattle.std.specs.List.{last_or};
ghost use Rattle.pcap_frames.specs.Checked.{checked};
ghost use Rattle.pcap_frames.specs.Frames.{frames_of};
ghost use Rattle.pcap_frames.specs.Heads.{IsFault};

use pcap_frames::{PcapFault, Whose, check, frames};
use std::alloc::Global;

/// When the last eCPRI frame of a capture that is wanted was seen, in nanoseconds, where its first is put at `start`. None where it
/// has none, and a refusal exactly where the file is malformed, want of memory aside.
pub fn last_seen(
    alloc: Global,
    file: &[u8],
    whose: Whose,
    start: u64,
) -> Result<Option<i64>, PcapFault>
    ensures accepted { OnOk result (checked whose file.now start ≡ Ok tt) }
    ensures fault { IfErr result (IsFault whose file.now start) }
    ensures last { IfOk result (λ last. last ≡ last_or None (map (λ frame. frame.at) (frames_of whose file.now start))) }
{
    let head = check(alloc, file, whose, start)?;
    let mut last = None;
    for frame in frames(file, &head, whose, start) {
        last = Some(frame.at);
    }
    Ok(last)
}
