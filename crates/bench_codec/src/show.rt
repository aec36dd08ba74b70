// A capture, shown.
use crate::words::Ending;
use capture_show::{ShowFault, show};
use fh_base::{INPUT_LIMIT, Sink, Source, read_all};
use std::alloc::Global;
use std::io;

/// A capture of one downlink command of 24 bytes.
pub const CAPTURE: [u8; 45] = [
    0x46, 0x48, 0x43, 0x41, 0x50, 0x30, 0x30, 0x31, 0x00, 0x00, 0x00, 0x00, 0x03, 0x6e, 0xe8, 0x00,
    0x00, 0x00, 0x00, 0x00, 0x18, 0x10, 0x02, 0x00, 0x14, 0x00, 0x00, 0x00, 0x80, 0x90, 0x01, 0x00,
    0x00, 0x01, 0x01, 0x00, 0x00, 0x00, 0x10, 0x00, 0x01, 0xff, 0xf1, 0x00, 0x00,
];

/// What a capture is shown as.
#[derive(Clone, Copy)]
pub enum Form {
    Text,
    Json,
}

impl Form {
    fn of(words: &[&str]) -> Option<Form> {
        match *words {
            ["text"] => Some(Form::Text),
            ["json"] => Some(Form::Json),
            _ => None,
        }
    }
}

/// `text|json`: reads a capture from `source` and writes what is shown of it to `out`.
pub fn run<S: Source, K: Sink>(
    rt: &impl Eprint,
    alloc: Global,
    words: &[&str],
    source: &mut S,
    out: &mut K,
) -> io::Result<Ending> {
    let Some(form) = Form::of(words) else {
        return Ok(Ending::BadWords);
    };
    match read_all(alloc, source, INPUT_LIMIT) {
        Ok(bytes) => put(rt, alloc, bytes.as_slice(), form, out)?,
        Err(_) => eprintln!(rt; "not read")?,
    }
    Ok(Ending::Done)
}

/// Writes what is shown of a capture. Where that fails it writes one line on the reason to standard error.
pub fn put<K: Sink>(
    rt: &impl Eprint,
    alloc: Global,
    capture: &[u8],
    form: Form,
    out: &mut K,
) -> io::Result<()> {
    match show(alloc, capture, matches!(form, Form::Json), out) {
        Ok(()) => Ok(()),
        Err(ShowFault::BadCapture { place, why }) => eprintln!(rt; "byte {place}: {}", why.name()),
        Err(ShowFault::WriteFault) => eprintln!(rt; "write fault"),
        Err(ShowFault::NoMemory) => eprintln!(rt; "no memory"),
    }
}
