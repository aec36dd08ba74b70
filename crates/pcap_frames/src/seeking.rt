// The next frame that is wanted.
ghost use Rattle.pcap_frames.specs.Finding.{Finds};
ghost use Rattle.pcap_frames.specs.Walks.{IsWalk};

use crate::finding::Found;
use crate::values::Whose;
use crate::walks::Walk;
use crate::wanting::wanted;

/// The first frame that is wanted, where there is one before what is refused.
pub fn find(walk: Walk<'_>, whose: Whose) -> Option<Found<'_>>
    requires { IsWalk walk }
    ensures { Finds whose walk.entry result }
{
    let mut left = walk;
    while let Some(step) = left.step() {
        left = step.behind;
        if let Some(wanted) = wanted(step.content, whose) {
            return Some(Found {
                wanted,
                behind: left,
            });
        }
    }
    None
}
