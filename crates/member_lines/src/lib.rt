//! The members of a line of text, ` name=value` each: a name with a number or a word.
//!
//! [`named`] appends a member whose value is a number, [`named_signed`] one with a sign, [`named_hex2`], [`named_hex3`] and
//! [`named_hex4`] one of hexadecimal digits, and [`named_word`] one that is a word. [`lead`] appends what is before a value, and
//! [`way`] is the word of a way. None takes memory.
#![tactic(auto)]

mod members;
mod ways;

pub use members::{lead, named, named_hex2, named_hex3, named_hex4, named_signed, named_word};
pub use ways::way;
