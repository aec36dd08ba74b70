//! What the messages of an endpoint's stream are cut by.
ghost use Rattle.std.specs.Prelude.{◌≡◌, ◌≤◌};

use plan_model::{Departures, Stream, frame_count};
use window_config::Config;

/// What the messages of an endpoint's stream are cut by.
#[derive(Clone, Copy, Debug, PartialEq, Eq)]
pub struct Limits {
    /// The place of the endpoint in the configuration.
    pub endpoint: u8,
    pub stream: Stream,
    /// The most parts of a message.
    pub pack: usize,
    /// The most application bytes of a frame; None where a message goes in one frame.
    pub fragment: Option<usize>,
    /// When frames leave.
    pub departures: Departures,
}

impl Limits {
    ghost use Rattle.window_config.specs.Configs.{IsConfig};
    ghost use Rattle.du_scheduler.specs.Ranges.{IsLimits};
    ghost use Rattle.du_scheduler.specs.PlanRuns.{limits_of};
    ghost use Rattle.du_scheduler.specs.Walks.{frames_needed};
    ghost use Rattle.unit_model.specs.Terms.{MESSAGE_BYTES};

    /// Those of a stream: a command has one part and goes in one frame; data has so many parts and goes in such fragments as the
    /// configuration says (this project's profile).
    pub fn of(config: &Config, stream: Stream, endpoint: u8) -> Limits
        requires { IsConfig config.now }
        ensures value { result ≡ limits_of config.now stream endpoint }
        ensures limits { IsLimits result }
    {
        let (pack, fragment) = match stream {
            Stream::DownCommands | Stream::UpCommands => (1, None),
            Stream::DownData | Stream::UpData => (config.pack, Some(config.fragment)),
        };
        Limits {
            endpoint,
            stream,
            pack,
            fragment,
            departures: Departures::of(config, stream),
        }
    }

    /// How many frames carry a message of so many application bytes.
    pub(crate) fn frames_of(&self, bytes: usize) -> usize
        requires limits { IsLimits self.now }
        requires bytes { bytes ≤ MESSAGE_BYTES }
        ensures value { result ≡ frames_needed self.now.fragment bytes }
        ensures small { result ≤ 128 }
    {
        match self.fragment {
            None => 1,
            Some(most) => frame_count(most, bytes),
        }
    }
}
