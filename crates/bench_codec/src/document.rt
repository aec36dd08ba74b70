// A document, read by the whole grammar.
use crate::words::Ending;
use fh_base::{INPUT_LIMIT, ReadAllFault, Source, read_all};
use fh_document::{DocFault, read};
use std::alloc::Global;
use std::io;

/// Reads a document from `source`, and prints how many endpoints, deliveries and injected frames it has, or which line is refused first
/// and why.
pub fn run<S: Source>(rt: &impl Print, alloc: Global, source: &mut S) -> io::Result<Ending> {
    match read_all(alloc, source, INPUT_LIMIT) {
        Ok(bytes) => tell(rt, alloc, bytes.as_slice())?,
        Err(ReadAllFault::ReadFault) => println!(rt; "read fault")?,
        Err(ReadAllFault::TooLong) => println!(rt; "too long")?,
        Err(ReadAllFault::NoMemory) => println!(rt; "no memory")?,
    }
    Ok(Ending::Done)
}

fn tell(rt: &impl Print, alloc: Global, bytes: &[u8]) -> io::Result<()> {
    match read(alloc, bytes) {
        Ok(document) => {
            let endpoints = document.config.endpoints.as_slice().len();
            let deliveries = document.deliveries.len();
            let frames = document.injections.len();
            println!(rt;
                "accepted: {endpoints} endpoints, {deliveries} deliveries, {frames} injected frames"
            )
        }
        Err(DocFault::At { line, why }) => println!(rt; "refused: line {line}: {}", why.name()),
        Err(DocFault::NoMemory) => println!(rt; "no memory"),
    }
}
