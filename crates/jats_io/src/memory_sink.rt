//! A sink in memory that fails when it is told to.

ghost use Rattle.std.specs.Prelude.{◌≡◌, ◌<◌, ◌≤◌, [], ◌∷◌, ◌++◌, length, IfOk, OnOk, OnErr, IsErr, Some};
ghost use Rattle.jats_io.specs.Causes.{Counts, HasCause};
ghost use Rattle.jats_io.specs.Writes.{Writes};
ghost use Rattle.jats_io.specs.Written.{Written, WritesMemory};

use crate::sink::{Sink, WriteFault};
use jats_chars::NoMemory;
use std::alloc::Global;
use std::marker::Model;

/// What was written, and the numbers of the writes that fail, counted from 1.
#[derive(Drop)]
pub struct MemorySink {
    bytes: Vec<u8>,
    room: usize,
    most: usize,
    failing: Vec<u64>,
    calls: u64,
    faults: u64,
}

impl Model for MemorySink {
    ghost use Rattle.std.specs.Prelude.{◌≡◌, ◌<◌, ◌≤◌, ◌+◌, vec_len, vec_capacity};
    ghost use Rattle.jats_io.specs.Written.{Written};

    ghost Value = { Written };

    ghost view = { λ s. record { bytes = s.bytes.items; room = s.room; most = s.most; failing = s.failing.items; calls = s.calls; faults = s.faults } };

    ghost invariant = { λ s. (0 < s.most) × (vec_len s.bytes + s.room ≤ vec_capacity s.bytes) };
}

impl MemorySink {
    /// A sink to which nothing is written, and of which no write is listed to fail. It takes this many bytes, which are
    /// reserved, and in one write this many at most.
    pub fn new(alloc: Global, room: usize, most: usize) -> Result<MemorySink, NoMemory>
        requires { 0 < most }
        ensures { IfOk result (λ s. s ≡ record { bytes = []; room = room; most = most; failing = []; calls = 0; faults = 0 }) }
    {
        let bytes = Vec::with_capacity(alloc, room)?;
        Ok(MemorySink {
            bytes,
            room,
            most,
            failing: Vec::new(alloc),
            calls: 0,
            faults: 0,
        })
    }

    /// Lists the number of a write, counted from 1, that fails.
    pub fn fail_call(&mut self, number: u64) -> Result<(), NoMemory>
        ensures ok { OnOk result (self.new ≡ record self.old { failing = self.old.failing ++ number ∷ [] }) }
        ensures err { OnErr result (self.new ≡ self.old) }
    {
        self.failing.push(number)?;
        Ok(())
    }

    /// How many writes were made, up to 2^64 - 1.
    pub fn calls(&self) -> u64
        ensures { result ≡ self.now.calls }
    {
        self.calls
    }

    /// What was written.
    pub fn bytes(&self) -> &[u8]
        ensures { result.now ≡ self.now.bytes }
    {
        self.bytes.as_slice()
    }
}

impl Sink for MemorySink {
    ghost use Rattle.std.specs.Prelude.{Some};

    ghost written = { λ s. Some s.bytes };

    ghost faults = { λ s. s.faults };

    ghost made = { λ s. 0 };

    fn write(&mut self, bytes: &[u8]) -> Result<usize, WriteFault>
        ensures faults { HasCause self.old.faults self.new.faults (IsErr result) }
        ensures failures { Counts self.old.faults self.new.faults (IsErr result) }
        ensures count { IfOk result (λ n. (n ≤ length bytes.now) × (0 < length bytes.now → 0 < n)) }
        ensures appends { Writes (Some self.old.bytes) (Some self.new.bytes) bytes.now result }
        ensures exact { WritesMemory self.old self.new bytes.now result }
    {
        self.calls = self.calls.saturating_add(1);
        let full = self.room == 0 && !bytes.is_empty();
        if full || self.failing.contains(&self.calls) {
            self.faults = self.faults.saturating_add(1);
            return Err(WriteFault::Failed);
        }
        let count = bytes.len().min(self.most.min(self.room));
        match self.bytes.extend_from_slice(&bytes[..count]) {
            Ok(()) => {
                self.room -= count;
                Ok(count)
            }
            Err(_) => unreachable!(),
        }
    }
}
