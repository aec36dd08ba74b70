// Words and bytes on the heap.
use fh_base::{Bytes, List, NoMemory};
use std::alloc::Global;

pub(crate) fn bytes_of(alloc: Global, text: &[u8]) -> Result<Bytes, NoMemory> {
    let mut bytes = Bytes::new(alloc);
    bytes.push_all(text)?;
    Ok(bytes)
}

pub(crate) fn words_of(alloc: Global, words: &[&[u8]]) -> Result<List<Bytes>, NoMemory> {
    let mut list = List::new(alloc);
    for word in words {
        list.push(bytes_of(alloc, word)?)?;
    }
    Ok(list)
}
