//! Block floating point compression of PRBs (O-RAN.WG4.CUS, Annex A), and the bit fields of bytes in which every layout is written.
//!
//! [`pack`] writes 12 samples I, Q as a shared exponent and 24 mantissas of a few bits, or as 24 numbers of 16 bits where they are
//! not compressed, and [`unpack`] reads them. [`field_at`] reads a field of up to 128 bits at any place; [`number_at`] and
//! [`put_number`] read and write up to 16 bytes, big endian. Bits are counted from 0, the most significant bit of the first
//! byte, as the tables of O-RAN, eCPRI and 3GPP count them, and a field has its most significant bit first. Nothing takes memory.
#![tactic(auto)]

mod exponents;
mod fields;
mod methods;
mod packed_bytes;
mod packing;
mod samples;
mod unpacking;

pub use exponents::exponent;
pub use fields::{field_at, number_at, put_number};
pub use methods::{Format, Method, block_len};
pub use packed_bytes::Packed;
pub use packing::{pack, pack_into};
pub use samples::{Iq, Wide};
pub use unpacking::{unpack, unpack_into};
