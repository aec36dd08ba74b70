// Each public call once, with ample memory, and the faults that a caller meets.
use fh_base::{
    Bytes, Failed, List, MemorySink, MemorySource, NoMemory, PlainSink, PlainSource, ReadAllFault,
    Sink, SinkFault, Source, StdSink, StdSource, read_all, write_all_to,
};
use std::alloc::Global;
use std::io;
use std::io::Write;
use std::test::Fail;

fn bytes_of(alloc: Global, text: &[u8]) -> Result<Bytes, NoMemory> {
    let mut bytes = Bytes::new(alloc);
    bytes.push_all(text)?;
    Ok(bytes)
}

pub fn calls(alloc: Global, number: u64) -> Result<List<u64>, NoMemory> {
    let mut list = List::new(alloc);
    list.push(number)?;
    Ok(list)
}

#[test]
fn bytes_and_items_are_kept(rt: HostRuntime) -> Result<(), Fail> {
    let mut bytes = bytes_of(rt.alloc(), b"dl ")?;
    bytes.push_all(b"1")?;
    assert_eq!(rt; bytes.as_slice(), b"dl 1".as_slice());
    bytes.clear();
    bytes.push_all(b"ul")?;
    assert_eq!(rt; bytes.as_slice(), b"ul".as_slice());
    let mut list = calls(rt.alloc(), 7)?;
    list.push(9)?;
    assert_eq!(rt; list.len(), 2);
    assert_eq!(rt; list.get(1).copied(), Some(9));
    assert_eq!(rt; list.get(2).copied(), None);
    Ok(())
}

#[test]
fn a_source_gives_pieces_and_fails_where_told(rt: HostRuntime) -> Result<(), Fail> {
    let alloc = rt.alloc();
    let mut source = MemorySource::new(bytes_of(alloc, b"abcde")?, 3, calls(alloc, 2)?);
    let mut into = [0; 4];
    assert_eq!(rt; source.read(&mut into), Ok(3));
    assert_eq!(rt; into, [b'a', b'b', b'c', 0]);
    assert_eq!(rt; source.read(&mut into), Err(Failed));
    assert_eq!(rt; source.read(&mut into), Ok(2));
    assert_eq!(rt; into, [b'd', b'e', b'c', 0]);
    assert_eq!(rt; source.read(&mut into), Ok(0));
    Ok(())
}

#[test]
fn a_source_is_read_up_to_the_limit(rt: HostRuntime) -> Result<(), Fail> {
    let alloc = rt.alloc();
    let mut source = MemorySource::new(bytes_of(alloc, b"abcde")?, 2, List::new(alloc));
    let all = read_all(alloc, &mut source, 5)?;
    assert_eq!(rt; all.as_slice(), b"abcde".as_slice());
    let mut source = PlainSource::new(bytes_of(alloc, b"abcde")?);
    assert_eq!(rt;
        read_all(alloc, &mut source, 4).err(),
        Some(ReadAllFault::TooLong)
    );
    let mut source = MemorySource::new(bytes_of(alloc, b"abcde")?, 2, calls(alloc, 3)?);
    assert_eq!(rt;
        read_all(alloc, &mut source, 9).err(),
        Some(ReadAllFault::ReadFault)
    );
    Ok(())
}

#[test]
fn sinks_keep_what_was_written(rt: HostRuntime) -> Result<(), Fail> {
    let alloc = rt.alloc();
    let mut sink = MemorySink::new(alloc, 1, calls(alloc, 5)?);
    assert_eq!(rt;
        write_all_to(&mut sink, b"dl 15360"),
        Err(SinkFault::Failed)
    );
    assert_eq!(rt; sink.bytes(), b"dl 1".as_slice());
    assert_eq!(rt; sink.write(b"45"), Ok(1));
    assert_eq!(rt; sink.bytes(), b"dl 14".as_slice());
    let mut sink = PlainSink::new(alloc);
    assert_eq!(rt; write_all_to(&mut sink, b"count "), Ok(()));
    assert_eq!(rt; sink.write(b"ru"), Ok(2));
    assert_eq!(rt; sink.bytes(), b"count ru".as_slice());
    Ok(())
}

#[test]
fn readers_and_writers_of_std_are_ends(rt: HostRuntime) -> Result<(), Fail> {
    let alloc = rt.alloc();
    let all = read_all(alloc, &mut StdSource::new(b"abc".as_slice()), 3)?;
    assert_eq!(rt; all.as_slice(), b"abc".as_slice());
    let mut told = StdSource::telling(b"abc".as_slice());
    assert_eq!(rt;
        read_all(alloc, &mut told, 2).err(),
        Some(ReadAllFault::TooLong)
    );
    let mut text = Vec::new(alloc);
    assert_eq!(rt; write_all_to(&mut StdSink::new(&mut text), b"ab"), Ok(()));
    assert_eq!(rt;
        write_all_to(&mut StdSink::telling(&mut text), b"c"),
        Ok(())
    );
    assert_eq!(rt; text.as_slice(), b"abc".as_slice());
    Ok(())
}

// It takes nothing.
#[derive(Drop)]
struct Full;

impl Write for Full {
    fn write(&mut self, _buf: &[u8]) -> io::Result<usize> {
        Ok(0)
    }

    fn flush(&mut self) -> io::Result<()> {
        Ok(())
    }
}

#[test]
fn a_write_that_takes_nothing_is_a_fault(rt: HostRuntime) {
    let mut sink = StdSink::new(Full);
    assert_eq!(rt; write_all_to(&mut sink, b"end"), Err(SinkFault::Failed));
    assert_eq!(rt; write_all_to(&mut sink, b""), Ok(()));
}
