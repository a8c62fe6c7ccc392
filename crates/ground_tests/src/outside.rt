//! Sources, sinks and stores in memory: each once with ample memory, and the faults that no clause can make happen.

use cdb_outside::{
    Failed, LogStore, MemSink, MemSource, MemStore, ReadSource, Sink, SourceStop, WriteSink,
    read_up_to, write_whole,
};
use std::alloc::Global;
use std::test::Fail;

/// Whether these bytes are read up to a limit.
fn reads(alloc: Global, source: &mut MemSource, limit: usize, wanted: &[u8]) -> bool {
    match read_up_to(alloc, source, limit) {
        Ok(bytes) => bytes.as_slice() == wanted,
        Err(_) => false,
    }
}

/// The first read fails as planned; then a source is read past the limit, and to its end.
#[test]
fn a_source_fails_and_is_read(rt: HostRuntime) -> Result<(), Fail> {
    let text = Vec::from_slice(rt.alloc(), b"hello")?;
    let mut source = MemSource::new(text, vec![in rt.alloc(); 1]?);
    let stop = read_up_to(rt.alloc(), &mut source, 9).err();
    assert_eq!(rt; stop, Some(SourceStop::Fault));
    assert!(rt; reads(rt.alloc(), &mut source, 3, b"hell"));
    assert!(rt; reads(rt.alloc(), &mut source, 9, b"o"));
    Ok(())
}

#[test]
fn a_sink_fails_at_the_writes_of_its_plan(rt: HostRuntime) -> Result<(), Fail> {
    let mut sink = MemSink::new(rt.alloc(), vec![in rt.alloc(); 2]?);
    assert_eq!(rt; write_whole(&mut sink, b"one"), Ok(()));
    assert_eq!(rt; write_whole(&mut sink, b"two"), Err(Failed));
    assert_eq!(rt; write_whole(&mut sink, b" three"), Ok(()));
    assert_eq!(rt; sink.taken(), b"one three".as_slice());
    Ok(())
}

#[test]
fn readers_and_writers_are_sources_and_sinks(rt: HostRuntime) -> Result<(), Fail> {
    let mut source = ReadSource::new(b"hello".as_slice());
    let bytes = read_up_to(rt.alloc(), &mut source, 100)?;
    assert_eq!(rt; bytes.as_slice(), b"hello".as_slice());
    let mut held = [0u8; 3];
    let mut sink = WriteSink::new(held.as_mut_slice());
    assert_eq!(rt; write_whole(&mut sink, b"abc"), Ok(()));
    assert_eq!(rt; sink.write(b"d"), Err(Failed));
    Ok(())
}

/// Leaves so many synced bytes and no pending one, where there are as many.
fn shortened(store: &mut MemStore, at: u64) -> Result<(), Failed> {
    store.halt();
    if store.synced().len() as u64 >= at {
        store.cut(at)?;
    }
    Ok(())
}

/// Which calls succeed of an append, two syncs and an append, before a halt.
fn halted(store: &mut MemStore) -> [bool; 4] {
    let first = store.append(b"cd").is_ok();
    let sync = store.sync().is_ok();
    let again = store.sync().is_ok();
    let second = store.append(b"efgh").is_ok();
    store.halt();
    [first, sync, again, second]
}

/// What is synced is kept, and of what is pending a halt keeps a front; a call of the plan fails, and one inside a write.
#[test]
fn a_store_keeps_what_was_synced(rt: HostRuntime) -> Result<(), Fail> {
    let bytes = Vec::from_slice(rt.alloc(), b"ab")?;
    let mut store = MemStore::new(bytes, vec![in rt.alloc(); 3]?, Some(5), 1);
    assert!(rt; halted(&mut store) == [true, true, false, false]);
    assert!(rt; store.synced() == b"abcde".as_slice());
    assert!(rt; shortened(&mut store, 4).is_ok());
    assert!(rt; store.read(3, &mut [0u8; 3]) == Ok(1));
    Ok(())
}
