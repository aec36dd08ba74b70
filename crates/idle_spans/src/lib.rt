//! The spans in which an endpoint's transmitter is silent, whatever the cause.
//!
//! [`Spans`] are made for some frames of a configuration. A cell that the radio unit reports is marked in them; cells of other
//! units, frames and endpoints are passed over. A symbol is silent where no marked cell of it has samples. A span is a run of
//! silent symbols that no symbol before or after it extends within the frames, in the order of slot and symbol, also past
//! the end of a slot, a subframe or a frame. [`Spans::next`] goes over those of a least length.
//!
//! All memory is taken by [`Spans::make`]. `Spans` are an `Air`: they mark the cells that they hear of.
#![tactic(auto)]

mod air;
mod numbers;
mod places;
mod row;
mod spans;

pub use places::{Place, Span};
pub use spans::Spans;
