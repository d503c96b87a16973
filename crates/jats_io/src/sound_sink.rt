//! A sink in memory that does not fail while room is left.

ghost use Rattle.std.specs.Prelude.{◌≡◌, ◌≤◌, ◌<◌, ◌++◌, [], IfOk, IsErr, Some, length};
ghost use Rattle.jats_io.specs.Causes.{Counts, HasCause};
ghost use Rattle.jats_io.specs.Writes.{Writes};
ghost use Rattle.jats_io.specs.Written.{SoundBytes, WritesSound};

use crate::sink::{Sink, WriteFault};
use jats_chars::NoMemory;
use std::alloc::Global;
use std::marker::Model;

/// What was written, and the room that the sink was made with. Its count of faults is 0 while room is left.
#[derive(Drop)]
pub struct SoundSink {
    bytes: Vec<u8>,
    made: usize,
    faults: u64,
}

impl Model for SoundSink {
    ghost use Rattle.std.specs.Prelude.{◌≡◌, ◌≤◌, ◌<◌, vec_len, vec_capacity};
    ghost use Rattle.jats_io.specs.Written.{SoundBytes};

    ghost Value = { SoundBytes };

    ghost view = { λ s. record { bytes = s.bytes.items; made = s.made; faults = s.faults } };

    ghost invariant = { λ s. (vec_len s.bytes ≤ s.made) × (s.made ≤ vec_capacity s.bytes) × (vec_len s.bytes < s.made → s.faults ≡ 0) };
}

impl SoundSink {
    /// A sink to which nothing is written. It takes this many bytes, which are reserved.
    pub fn new(alloc: Global, room: usize) -> Result<SoundSink, NoMemory>
        ensures { IfOk result (λ s. s ≡ record { bytes = []; made = room; faults = 0 }) }
    {
        let bytes = Vec::with_capacity(alloc, room)?;
        Ok(SoundSink {
            bytes,
            made: room,
            faults: 0,
        })
    }

    /// What was written. That the count of faults is 0 while room is left is known by this call.
    pub fn bytes(&self) -> &[u8]
        ensures value { result.now ≡ self.now.bytes }
        ensures within { length self.now.bytes ≤ self.now.made }
        ensures sound { length self.now.bytes < self.now.made → self.now.faults ≡ 0 }
    {
        self.bytes.as_slice()
    }
}

impl Sink for SoundSink {
    ghost use Rattle.std.specs.Prelude.{Some};

    ghost written = { λ s. Some s.bytes };

    ghost faults = { λ s. s.faults };

    ghost made = { λ s. s.made };

    fn write(&mut self, bytes: &[u8]) -> Result<usize, WriteFault>
        ensures made { self.new.made ≡ self.old.made }
        ensures faults { HasCause self.old.faults self.new.faults (IsErr result) }
        ensures failures { Counts self.old.faults self.new.faults (IsErr result) }
        ensures count { IfOk result (λ n. (n ≤ length bytes.now) × (0 < length bytes.now → 0 < n)) }
        ensures appends { Writes (Some self.old.bytes) (Some self.new.bytes) bytes.now result }
        ensures exact { WritesSound self.old self.new bytes.now result }
    {
        let room = self.made - self.bytes.len();
        if room == 0 && !bytes.is_empty() {
            self.faults = self.faults.saturating_add(1);
            return Err(WriteFault::Failed);
        }
        let count = bytes.len().min(room);
        match self.bytes.extend_from_slice(&bytes[..count]) {
            Ok(()) => Ok(count),
            Err(_) => unreachable!(),
        }
    }
}
