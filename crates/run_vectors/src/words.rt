// Words whose source fails at once.
use crate::runs::{bytes_of, words_of};
use fh_base::{List, MemorySource, NoMemory, PlainSink};
use std::alloc::Global;
use std::test::Fail;
use top_call::{Status, run};

/// Runs these words over a source that fails at its first call: it is never called where nothing is read.
fn status_unread(alloc: Global, words: &[&[u8]]) -> Result<Status, NoMemory> {
    let words = words_of(alloc, words)?;
    let mut fails = List::new(alloc);
    fails.push(1)?;
    let mut source = MemorySource::new(bytes_of(alloc, b"fronthaul 1\n")?, 64, fails);
    let mut out = PlainSink::new(alloc);
    let mut err = PlainSink::new(alloc);
    Ok(run(alloc, &words, &mut source, &mut out, &mut err))
}

#[test]
fn what_reads_nothing_does_not_meet_the_fault(rt: HostRuntime) -> Result<(), Fail> {
    let alloc = rt.alloc();
    let lists: [&[&[u8]]; 5] = [
        &[],
        &[b""],
        &[b"replay", b"now"],
        &[b"generate", b"7", b"0"],
        &[b"trial", b"+7", b"20"],
    ];
    for words in lists {
        assert_eq!(rt; status_unread(alloc, words)?, Status::BadWords);
    }
    let words: [&[u8]; 3] = [b"generate", b"4294967295", b"001"];
    assert_eq!(rt; status_unread(alloc, &words)?, Status::Done);
    Ok(())
}

#[test]
fn a_command_that_reads_meets_the_fault(rt: HostRuntime) -> Result<(), Fail> {
    let alloc = rt.alloc();
    let words: [&[u8]; 6] = [
        b"replay", b"summary", b"capture", b"explain", b"windows", b"fit",
    ];
    for word in words {
        assert_eq!(rt; status_unread(alloc, &[word])?, Status::ReadFault);
    }
    Ok(())
}
