//! Frames and messages, as the order sees them.
ghost use Rattle.std.specs.Prelude.{◌≡◌, ◌<◌, ◌≤◌, ◌^◌};
ghost use Rattle.std.specs.Ordering.{as_partial_cmp};
ghost use Rattle.std.specs.Cmp.{partial_order_from_agreeing_total};
ghost use Rattle.std.proofs.Common.{refl};
ghost use Rattle.du_scheduler.specs.Turns.{IsRun, next_of};

use fh_base::Ticks;
use plan_model::Stream;
use std::cmp::Ordering;

/// Which frame it is and when it leaves. Frames are ordered by time, endpoint, stream, number and subsequence id; the fields are ordered
/// so that a queue's items are short.
#[derive(Clone, Copy, Debug, PartialEq, Eq)]
pub struct Turn {
    /// When it leaves.
    pub at: Ticks,
    /// The place of its endpoint in the configuration.
    pub endpoint: u8,
    pub stream: Stream,
    /// Its subsequence id.
    pub sub: u8,
    /// The number of its message in the stream.
    pub number: u32,
}

impl Turn {
    ghost use Rattle.du_scheduler.specs.Turns.{is_command, one_time_cmp};

    /// Whether its frame is a C-plane command.
    pub fn is_command(&self) -> bool
        ensures { result ≡ is_command self.now.stream }
    {
        match self.stream {
            Stream::DownCommands | Stream::UpCommands => true,
            Stream::DownData | Stream::UpData => false,
        }
    }

    /// The order of frames that leave together.
    fn cmp_at_one_time(&self, other: &Turn) -> Ordering
        ensures { result ≡ one_time_cmp self.now other.now }
    {
        match self.endpoint.cmp(&other.endpoint) {
            Ordering::Equal => match (self.stream as u8).cmp(&(other.stream as u8)) {
                Ordering::Equal => match self.number.cmp(&other.number) {
                    Ordering::Equal => self.sub.cmp(&other.sub),
                    unequal => unequal,
                },
                unequal => unequal,
            },
            unequal => unequal,
        }
    }
}

impl PartialOrd for Turn {
    ghost use Rattle.du_scheduler.specs.Turns.{turn_cmp};
    ghost use Rattle.du_scheduler.specs.TurnLaws.{turn_ties, turn_total};

    ghost partial_cmp = { as_partial_cmp turn_cmp };

    ghost laws = { partial_order_from_agreeing_total turn_cmp turn_total (λ x y. refl) turn_ties };

    fn partial_cmp(&self, other: &Turn) -> Option<Ordering> {
        Some(self.cmp(other))
    }
}

impl Ord for Turn {
    ghost use Rattle.du_scheduler.specs.Turns.{turn_cmp};
    ghost use Rattle.du_scheduler.specs.TurnLaws.{turn_ties, turn_total};

    ghost cmp = { turn_cmp };

    ghost total = { turn_total };

    ghost matches_partial_cmp = { λ x y. refl };

    ghost matches_eq = { turn_ties };

    fn cmp(&self, other: &Turn) -> Ordering {
        match self.at.cmp(&other.at) {
            Ordering::Equal => self.cmp_at_one_time(other),
            unequal => unequal,
        }
    }
}

/// What is left of the frames of a message.
#[derive(Clone, Copy, Debug, PartialEq, Eq, PartialOrd, Ord)]
pub struct Run {
    /// Its next frame.
    pub turn: Turn,
    /// When its last frame leaves at the latest, in a window that has an end.
    pub last: Ticks,
    /// How many frames are left, the next one included.
    pub left: u8,
}

/// What is left of a message after its next frame.
pub(crate) fn next_of(gap: u32, run: &Run) -> Option<Run>
    requires { IsRun run.now }
    ensures { result ≡ next_of gap run.now }
{
    if run.left <= 1 {
        return None;
    }
    let at = (run.turn.at.0 + i64::from(gap)).min(run.last.0);
    Some(Run {
        turn: Turn {
            at: Ticks(at),
            sub: run.turn.sub + 1,
            ..run.turn
        },
        last: run.last,
        left: run.left - 1,
    })
}
