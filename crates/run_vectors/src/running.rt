// Runs of the programs, with ends in memory that never fail.
use fh_base::{Bytes, List, NoMemory, PlainSink, PlainSource};
use std::alloc::Global;

/// What a run answered and wrote.
#[derive(Drop)]
pub struct Ran {
    pub status: u8,
    pub out: PlainSink,
    pub err: PlainSink,
}

/// A run of `fronthaul`.
pub fn run(alloc: Global, words: &List<Bytes>, input: Bytes) -> Ran {
    let mut source = PlainSource::new(input);
    let mut out = PlainSink::new(alloc);
    let mut err = PlainSink::new(alloc);
    let status = top_call::run(alloc, words, &mut source, &mut out, &mut err).code();
    Ran { status, out, err }
}

/// A run of `capture_pcap`.
pub fn export(alloc: Global, words: &List<Bytes>, input: Bytes) -> Ran {
    let mut source = PlainSource::new(input);
    let mut out = PlainSink::new(alloc);
    let mut err = PlainSink::new(alloc);
    let status = pcap_export::run(alloc, words, &mut source, &mut out, &mut err).code();
    Ran { status, out, err }
}
