// What is numbered by itself.

/// The messages of an endpoint that are numbered by themselves: those of one plane and direction (O-RAN.WG4.CUS, sequence
/// identifiers). The first three are sent by the distributed unit, in this order at one time; the last by the radio unit.
#[derive(Clone, Copy, Debug, PartialEq, Eq)]
pub enum Stream {
    /// C-plane messages for the downlink.
    DownCommands,
    /// C-plane messages for the uplink.
    UpCommands,
    /// U-plane messages of the downlink.
    DownData,
    /// U-plane messages of the uplink.
    UpData,
}
