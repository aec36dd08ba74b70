// The frames of a file, from its first.
ghost use Rattle.std.specs.Prelude.{◌≡◌, Ok};
ghost use Rattle.pcap_frames.specs.Checked.{checked};
ghost use Rattle.pcap_frames.specs.Frames.{frames_of, AreShown};
ghost use Rattle.pcap_frames.specs.Heads.{IsHead};
ghost use Rattle.pcap_frames.specs.Left.{left_of};
ghost use Rattle.pcap_frames.specs.Walks.{IsBegun};

use crate::heads::PcapHead;
use crate::iterating::Frames;
use crate::opening::opening_of;
use crate::pcapng_values::Interface;
use crate::values::{Layout, Whose};
use crate::walks::Walk;

// A walk over a file with these interfaces; nothing is left of one that is refused in its head.
fn begun<'a>(bytes: &'a [u8], interfaces: &'a [Interface]) -> Walk<'a>
    ensures { IsBegun bytes.now interfaces.now result }
{
    match opening_of(bytes) {
        Ok(opening) => Walk {
            rest: &bytes[opening.place..],
            layout: opening.layout,
            interfaces,
            count: 0,
        },
        Err(_) => Walk {
            rest: &bytes[..0],
            layout: Layout::Blocks(false),
            interfaces,
            count: 0,
        },
    }
}

/// The eCPRI frames of a file that are wanted, for which [`check`](crate::check) gave this head, with the same start.
pub fn frames<'a>(bytes: &'a [u8], head: &'a PcapHead, whose: Whose, start: u64) -> Frames<'a>
    requires passed { checked whose bytes.now start ≡ Ok tt }
    requires head { IsHead whose bytes.now head.now }
    ensures frames { left_of result ≡ frames_of whose bytes.now start }
    // their times lie in the range, and none is too long
    ensures shown { AreShown (left_of result) }
{
    Frames {
        walk: begun(bytes, &head.interfaces),
        whose,
        first: head.first,
        start,
    }
}
