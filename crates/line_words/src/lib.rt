//! The lines of a text, and the words of a line.
//!
//! Lines are cut at line feeds, words at spaces; an empty word is none. [`Words`] takes no memory; [`first_word`] cuts off the
//! first word alone.
#![tactic(auto)]

mod parts;
mod words;

pub use parts::{are_texts, cut, is_text, is_text_in, without_last_feed};
pub use words::{KEPT, Words, first_word};
