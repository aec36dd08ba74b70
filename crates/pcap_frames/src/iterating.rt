// The iterator over the frames of a file that are wanted.
ghost use Rattle.std.specs.Prelude.{IsTrue};
ghost use Rattle.pcap_frames.specs.Frames.{all_fine};
ghost use Rattle.pcap_frames.specs.Walks.{left_in, IsWalk};
ghost use Rattle.pcap_frames.specs.Wanted.{wanted_from};

use crate::ranges::time_behind;
use crate::seeking::find;
use crate::values::{PcapFrame, Whose};
use crate::walks::Walk;

/// The eCPRI frames of a file that passed [`check`](crate::check), those that are wanted, in the file's order.
#[derive(Clone, Copy)]
pub struct Frames<'a> {
    pub(crate) walk: Walk<'a>,
    pub(crate) whose: Whose,
    pub(crate) first: u128,
    pub(crate) start: u64,
    ghost goes_on: { IsWalk walk },
    ghost fine: { IsTrue (all_fine first start (wanted_from whose (left_in walk))) },
}

impl<'a> Iterator for Frames<'a> {
    ghost use Rattle.std.specs.Iterator.{YieldsFirstBy, item_count};
    ghost use Rattle.pcap_frames.specs.Left.{left_of};
    ghost use Rattle.pcap_frames.specs.Frames.{timed_of};

    type Item = PcapFrame<'a>;

    ghost next_gives = { YieldsFirstBy timed_of left_of };

    ghost remaining = { item_count left_of };

    fn next(&mut self) -> Option<PcapFrame<'a>> {
        let found = find(self.walk, self.whose)?;
        self.walk = found.behind;
        Some(PcapFrame {
            side: found.wanted.side,
            at: time_behind(self.first, self.start, found.wanted.time) as i64,
            frame: found.wanted.frame,
        })
    }
}
