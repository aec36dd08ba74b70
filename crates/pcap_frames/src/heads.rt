// What the tests of a file found.
use crate::pcapng_values::Interface;

/// What the tests of a file found, with which its frames are read.
#[derive(Drop)]
pub struct PcapHead {
    /// The time of the first frame that is wanted, in nanoseconds; 0 where there is none.
    pub(crate) first: u128,
    /// The interfaces of all sections, in the file's order.
    pub(crate) interfaces: Vec<Interface>,
}
