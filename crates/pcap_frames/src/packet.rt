// A packet.
ghost use Rattle.std.specs.Prelude.{◌<◌, ◌^◌};

/// A packet of an interface of Ethernet.
#[derive(Clone, Copy)]
pub struct Packet<'a> {
    /// When it was seen, in nanoseconds; of a pcapng file counted from 2^63 s before its time 0.
    pub time: u128,
    /// The bytes that were kept of it, an Ethernet frame.
    pub bytes: &'a [u8],
    ghost small: { time < 2 ^ 95 },
}
