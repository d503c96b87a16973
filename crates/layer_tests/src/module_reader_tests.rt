//! A set of one module.

use entity_catalog::Catalog;
use jats_chars::{NoMemory, Text};
use jats_io::MemoryStore;
use module_reader::read_set;
use std::alloc::Global;

/// How many elements the set of an entry has, or None where there is no set.
fn elements(
    alloc: Global,
    store: &mut MemoryStore,
    entry: &str,
) -> Result<Option<usize>, NoMemory> {
    let entry = Text::from_str(alloc, entry)?;
    let catalog = Catalog::empty(alloc);
    match read_set(alloc, store, &catalog, &entry) {
        Err(_) => Ok(None),
        Ok(set) => Ok(Some(set.count())),
    }
}

#[test]
fn a_set(rt: HostRuntime) -> Result<(), NoMemory> {
    let mut store = MemoryStore::new(rt.alloc());
    store.put(
        Text::from_str(rt.alloc(), "m.dtd")?,
        Vec::from_slice(rt.alloc(), b"<!ELEMENT a (b)><!ELEMENT b EMPTY>")?,
    )?;
    assert!(rt; elements(rt.alloc(), &mut store, "m.dtd")? == Some(2));
    assert!(rt; elements(rt.alloc(), &mut store, "n.dtd")?.is_none());
    Ok(())
}
