// The times that both units and the network between them are configured with.
ghost use Rattle.std.specs.Prelude.{◌≡◌};

/// The greatest of each time of a delay profile, 2 ms, in nanoseconds.
pub const MOST_DELAY: u64 = 2_000_000;

/// The least and the greatest of a time in whole nanoseconds, both inclusive.
#[derive(Clone, Copy, Debug, PartialEq, Eq)]
pub struct Range {
    pub min: i64,
    pub max: i64,
}

/// A delay profile (O-RAN.WG4.CUS, delay management), in whole nanoseconds.
///
/// Within the limits each time lies from 0 to 2,000,000 ns, no minimum exceeds its maximum, and the minima of T2a are at least
/// 1 ns.
#[derive(Clone, Copy, Debug, PartialEq, Eq)]
pub struct Delays {
    /// How long before its symbol the DU sends downlink data.
    pub t1a_up: Range,
    /// How long before its symbol the DU sends an uplink command.
    pub t1a_cp_ul: Range,
    /// How long before its symbol downlink data reach the RU.
    pub t2a_up: Range,
    /// How long before its symbol an uplink command reaches the RU.
    pub t2a_cp_ul: Range,
    /// How long after its symbol the RU sends uplink data.
    pub ta3: Range,
    /// How long after its symbol uplink data reach the DU.
    pub ta4: Range,
    /// How long a frame takes from the DU to the RU.
    pub t12: Range,
    /// How long a frame takes from the RU to the DU.
    pub t34: Range,
    /// How much earlier than data a downlink command is sent and awaited (Tcp_adv_dl).
    pub advance: i64,
    /// How long the RU takes in the fragments of one message.
    pub hold_dl: i64,
    /// How long the DU takes in the fragments of one message.
    pub hold_ul: i64,
}

/// A least and a greatest time.
fn span(min: i64, max: i64) -> Range
    ensures { result ≡ record { min = min; max = max } }
{
    Range { min, max }
}

impl Delays {
    ghost use Rattle.window_config.specs.Limits.{IsWithinLimits};
    ghost use Rattle.window_config.specs.Usual.{usual_delays};

    /// The usual delay profile, which a document has where it says nothing of a time.
    pub fn usual() -> Delays
        ensures value { result ≡ usual_delays }
        ensures limits { IsWithinLimits result }
    {
        Delays {
            t1a_up: span(234_000, 345_000),
            t1a_cp_ul: span(225_000, 470_000),
            t2a_up: span(134_000, 345_000),
            t2a_cp_ul: span(125_000, 470_000),
            ta3: span(50_000, 171_000),
            ta4: span(50_000, 271_000),
            t12: span(0, 100_000),
            t34: span(0, 100_000),
            advance: 125_000,
            hold_dl: 211_000,
            hold_ul: 221_000,
        }
    }
}
