// The kinds of endpoint, which only this crate names.

use crate::spacing::Spacing;

/// The kind of an endpoint, with the spacing of its subcarriers.
#[derive(Clone, Copy, Debug, PartialEq, Eq)]
pub enum Kind {
    /// The normal cyclic prefix.
    Ordinary(Spacing),
    /// For section type 3: its own offset after the slot's start, in Ts, and its own cyclic prefix, in Ts over 2^u.
    Offset {
        spacing: Spacing,
        time_offset: u16,
        cp_length: u16,
    },
    /// The extended cyclic prefix, at 60 kHz.
    Extended,
}
