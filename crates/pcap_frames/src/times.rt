// When a packet was seen.
ghost use Rattle.std.specs.Prelude.{◌≡◌, ◌≤◌, ◌<◌, ◌^◌, ◌*◌, ◌/◌, ◌-◌};
ghost use Rattle.pcap_frames.specs.Times.{units_of, time_of};

use crate::pcapng_values::Interface;

/// Nanoseconds in a second.
const SECOND: u128 = 1_000_000_000;
/// The resolution of nanoseconds.
const NANOSECONDS: u8 = 9;
/// From this power of ten on a unit is so short that 64 bits of it are under a nanosecond.
const SHORT: u8 = 29;

// A power of ten that is no more than this.
fn power(exponent: u8) -> u128
    requires { exponent < 29 }
    ensures value { result ≡ 10 ^ exponent }
    ensures some { 0 < result }
{
    10u128.pow(exponent as u32)
}

// How many nanoseconds a unit has that is not shorter than one.
fn scale(resolution: u8) -> u64
    requires { resolution ≤ 9 }
    ensures value { result ≡ 10 ^ (9 - resolution) }
    ensures small { result ≤ 10 ^ 9 }
{
    10u64.pow((NANOSECONDS - resolution) as u32)
}

// A count of such units in nanoseconds.
fn multiple(count: u64, resolution: u8) -> u128
    requires { resolution ≤ 9 }
    ensures value { result ≡ count * 10 ^ 9 / 10 ^ resolution }
    ensures small { result < 2 ^ 94 }
{
    count as u128 * scale(resolution) as u128
}

// A count of units in nanoseconds, rounded down.
fn nanoseconds(count: u64, resolution: u8) -> u128
    ensures value { result ≡ count * 10 ^ 9 / units_of resolution }
    ensures small { result < 2 ^ 94 }
{
    let all = count as u128 * SECOND;
    if resolution >= 128 {
        all >> (resolution - 128)
    } else if resolution <= NANOSECONDS {
        multiple(count, resolution)
    } else if resolution < SHORT {
        all / power(resolution)
    } else {
        0
    }
}

/// When a packet was seen whose time is a count of its interface's units, in nanoseconds from 2^63 s before the time 0.
pub(crate) fn time(count: u64, interface: &Interface) -> u128
    ensures value { result ≡ time_of interface.now count }
    ensures small { result < 2 ^ 95 }
{
    nanoseconds(count, interface.resolution) + interface.offset as u128 * SECOND
}
