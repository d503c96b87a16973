//! What the program reads and writes.
//!
//! A `Store` gives the bytes of a file by its name, and a `Sink` takes bytes. The program is generic over both, so what
//! it answers is proved for every store and every sink, whatever they do. A store may tell which files it holds, and a
//! sink what was written to it; where they tell, the contracts of the program name these bytes.
//!
//! Both count their failures. A failure is answered only where the count rose in that call, so a program that reports a
//! failure of its surroundings without one breaks its contract (`specs/Causes.antt`). What a load answers is
//! `specs/Loads.antt`, and what a write appends `specs/Writes.antt`.
//!
//! `MemoryStore` and `MemorySink` tell everything, and fail at the calls that they are told to. `SoundStore` and
//! `SoundSink` do not fail: the first never, the second not before its room is used up. `FolderStore` and `StdSink` are
//! the files below a folder and the standard output. They tell nothing of content, since no contract can say what a
//! device holds.
#![tactic(auto)]

mod folder_store;
mod laws;
mod memory_sink;
mod memory_store;
mod sink;
mod sound_sink;
mod sound_store;
mod std_sink;
mod store;

pub use folder_store::{FolderStore, read_bytes};
pub use laws::{put_law, rose_law};
pub use memory_sink::MemorySink;
pub use memory_store::MemoryStore;
pub use sink::{Sink, WriteFault, write_all};
pub use sound_sink::SoundSink;
pub use sound_store::SoundStore;
pub use std_sink::StdSink;
pub use store::{LoadFault, Loaded, Store};
