//! Stores and sinks in memory, and the edge.

use jats_chars::{NoMemory, Text};
use jats_io::{FolderStore, Loaded, MemorySink, MemoryStore, StdSink, Store, write_all};
use std::alloc::Global;

fn size(loaded: Loaded) -> Option<usize> {
    match loaded {
        Loaded::Bytes(bytes) => Some(bytes.len()),
        Loaded::Absent => None,
    }
}

/// How many bytes a load gives, or None where it gives none.
fn loaded<S: Store>(
    alloc: Global,
    store: &mut S,
    name: &str,
    limit: u16,
) -> Result<Option<usize>, NoMemory> {
    let name = Text::from_str(alloc, name)?;
    match store.load(alloc, &name, limit as usize) {
        Ok(loaded) => Ok(size(loaded)),
        Err(_) => Ok(None),
    }
}

#[test]
fn a_store(rt: HostRuntime) -> Result<(), NoMemory> {
    let mut store = MemoryStore::new(rt.alloc());
    store.put(
        Text::from_str(rt.alloc(), "m")?,
        Vec::from_slice(rt.alloc(), b"abcd")?,
    )?;
    store.fail_call(3)?;
    assert!(rt; loaded(rt.alloc(), &mut store, "m", 2)? == Some(3));
    assert!(rt; loaded(rt.alloc(), &mut store, "o", 2)?.is_none());
    assert!(rt; loaded(rt.alloc(), &mut store, "m", 2)?.is_none());
    assert!(rt; store.calls() == 3);
    Ok(())
}

#[test]
fn a_sink(rt: HostRuntime) -> Result<(), NoMemory> {
    let mut sink = MemorySink::new(rt.alloc(), 100, 10)?;
    sink.fail_call(2)?;
    assert!(rt; write_all(&mut sink, b"subset\ndocuments some\n").is_err());
    assert!(rt; sink.bytes() == b"subset\ndoc".as_slice() && sink.calls() == 2);
    Ok(())
}

#[test]
fn the_edge(rt: HostRuntime) -> Result<(), NoMemory> {
    let mut store = FolderStore::new(&rt, Text::from_str(rt.alloc(), "/dev")?);
    assert!(rt; loaded(rt.alloc(), &mut store, "zero", 10_000)? == Some(10_001));
    assert!(rt; loaded(rt.alloc(), &mut store, "null", 9)? == Some(0));
    assert!(rt; loaded(rt.alloc(), &mut store, "no-such-file", 9)?.is_none());
    assert!(rt; write_all(&mut StdSink::new(&rt), b"\n").is_ok());
    Ok(())
}
