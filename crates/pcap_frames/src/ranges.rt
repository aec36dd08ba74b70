// The range of times.
ghost use Rattle.std.specs.Prelude.{◌≡◌, ◌≤◌, ◌<◌, ◌^◌, ◌+◌, ◌-◌, IsTrue};
ghost use Rattle.pcap_frames.specs.Checked.{in_range};
ghost use Rattle.fh_base.specs.declared.nanoseconds.TheConstants.{LAST_TIME};

use fh_base::LAST_TIME;

/// Whether a time, counted from the first and put after the start, lies from 0 to 1,000,000,000,000 ns.
pub fn is_in_range(first: u128, start: u64, time: u128) -> bool
    requires { time < 2 ^ 96 }
    ensures { result ≡ in_range first start time }
{
    let sum = start as u128 + time;
    first <= sum && sum - first <= LAST_TIME as u128
}

/// This time.
pub fn time_behind(first: u128, start: u64, time: u128) -> u64
    requires small { time < 2 ^ 96 }
    requires within { IsTrue (in_range first start time) }
    ensures at { result ≡ start + time - first }
    ensures small { result ≤ LAST_TIME }
{
    (start as u128 + time - first) as u64
}
