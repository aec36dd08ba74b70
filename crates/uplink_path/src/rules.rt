// What all messages are sent by.
ghost use Rattle.std.specs.Prelude.{◌≡◌};
ghost use Rattle.window_config.specs.Configs.{IsConfig};
ghost use Rattle.uplink_path.specs.Sending.{AreRules, rules_of, wait_in};

use fh_base::Slot;
use plan_model::{Departures, Stream};
use unit_model::UplinkJob;
use window_config::Config;

/// What all messages are sent by.
#[derive(Clone, Copy, Debug)]
pub(crate) struct Rules {
    /// The most application bytes of a frame.
    pub(crate) fragment: usize,
    /// The most sections of a message.
    pub(crate) pack: usize,
    /// When frames leave, after their symbol's start.
    pub(crate) departures: Departures,
}

/// The symbol of the last message, and how long its next frame waits.
#[derive(Clone, Copy, Debug)]
pub(crate) struct Run {
    pub(crate) ep: usize,
    pub(crate) slot: Slot,
    pub(crate) symbol: u8,
    pub(crate) wait: u64,
}

/// The rules of a configuration.
pub(crate) fn rules_of(config: &Config) -> Rules
    requires { IsConfig config.now }
    ensures value { result ≡ rules_of config.now }
    ensures kept { AreRules result }
{
    Rules {
        fragment: config.fragment,
        pack: config.pack,
        departures: Departures::of(config, Stream::UpData),
    }
}

/// How long the first frame of a job's message waits after the first of its symbol.
pub(crate) fn wait_in(run: Option<Run>, job: &UplinkJob) -> u64
    ensures { result ≡ wait_in run job.now }
{
    match run {
        Some(r) if r.ep == job.ep && r.slot == job.slot && r.symbol == job.symbol => r.wait,
        _ => 0,
    }
}
