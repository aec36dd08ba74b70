// A capture file and the classic file of its packets.
ghost use Rattle.pcap_laws.specs.Laws.{ClassicGivesTheSame};

/// A pcapng file gives the frames that the classic file of nanoseconds gives that has its packets in their order, with times that are less
/// by one number of whole seconds. A frame is refused in one exactly where it is in the other, for the same reason.
pub fn classic_gives_the_same()
    ensures { ClassicGivesTheSame }
{}
