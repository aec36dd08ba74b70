// What times are spoken of in.

/// A time in ticks of 1/1536 ns, counted from the start of frame 0. One Ts (1/30.72 MHz) is 50,000 ticks.
#[derive(Clone, Copy, Debug, PartialEq, Eq, PartialOrd, Ord)]
pub struct Ticks(pub i64);

/// A slot by its absolute frame, which may be negative, its subframe from 0 to 9, and its number in the subframe.
#[derive(Clone, Copy, Debug, PartialEq, Eq)]
pub struct Slot {
    pub frame: i64,
    pub subframe: u8,
    pub slot: u8,
}

/// How many symbols a slot has, and how many slots a subframe has.
#[derive(Clone, Copy, Debug, PartialEq, Eq)]
pub struct Shape {
    pub symbols: u8,
    pub slots: u8,
}
