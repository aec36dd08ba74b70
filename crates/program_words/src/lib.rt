//! The words of the command line, as bytes.
#![tactic(auto)]

use fh_base::{Bytes, List, NoMemory};
use std::alloc::Global;
use std::env;
use std::io::ErrorKind;
use std::rt::Env;

/// The words after the program's name. Where one is no text there are none.
///
/// # Errors
///
/// `NoMemory` where memory is refused.
pub fn collect_words<R: Env + Alloc<A = Global>>(
    rt: &R,
    alloc: Global,
) -> Result<List<Bytes>, NoMemory> {
    let mut words = List::new(alloc);
    let arguments = match env::args(rt) {
        Ok(arguments) => arguments,
        Err(error) if error.kind() == ErrorKind::OutOfMemory => return Err(NoMemory),
        Err(_) => return Ok(words),
    };
    for argument in arguments.skip(1) {
        let mut word = Bytes::new(alloc);
        word.push_all(argument.as_bytes())?;
        words.push(word)?;
    }
    Ok(words)
}
